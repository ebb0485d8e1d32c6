// A round: one turn of each session that has not ended.
ghost use Rattle.std.specs.Prelude.{◌≡◌, ◌≤◌, ◌<◌, true, false, ℕ, List, length, map, None, IfOk};
ghost use Rattle.chv_defs.specs.Schedule.{numbered, rounds_of};
ghost use Rattle.chv_play.specs.Played.{AreOver};
ghost use Rattle.chv_control.specs.Shelf.{shelf_of, sectors_of};
ghost use Rattle.chv_play.specs.Playing.{visit_ahead, behind_round};
ghost use Rattle.chv_play.specs.Round.{Stands, GoesOn};

use crate::desk::PlayDesk;
use crate::seat::Seat;
use chv_defs::Full;
use chv_io::Disk;
use std::alloc::AllocError;

/// One turn of each seat whose session has not ended, in the order of the seats; the first is caller 1.
pub(crate) fn round<D: Disk>(
    desk: &mut PlayDesk<D>,
    seats: &mut [Seat],
) -> Result<Option<Full>, AllocError>
    requires { length seats.old ≤ 16 }
    ensures goes_on { IfOk result (λ full. (streams : List (List ℕ))
        → Stands (shelf_of (sectors_of D.sector_count) desk.old.control.disks) streams desk.old.control 0 seats.old
        → GoesOn (shelf_of (sectors_of D.sector_count) desk.old.control.disks) streams desk.new.control 0 seats.new full) }
    ensures visits { IfOk result (λ full. full ≡ None → map visit_ahead seats.new ≡ behind_round 0 seats.old) }
    ensures number { length seats.new ≡ length seats.old }
    ensures disks { desk.new.control.disks ≡ desk.old.control.disks }
    ensures sessions { desk.new.control.sessions ≡ desk.old.control.sessions }
{
    for i in 0..seats.len() {
        let full = seats[i].serve(desk, i as u32 + 1)?;
        if full.is_some() {
            return Ok(full);
        }
    }
    Ok(None)
}

/// Whether the session of each seat has ended.
fn are_over(seats: &[Seat]) -> bool
    ensures over { result ≡ true → AreOver seats.now }
    ensures going { result ≡ false → 0 < rounds_of (numbered (map visit_ahead seats.now)) }
{
    for seat in seats {
        if !seat.is_over {
            return false;
        }
    }
    true
}

/// Rounds until each session has ended, or the book is full.
pub(crate) fn rounds<D: Disk>(
    desk: &mut PlayDesk<D>,
    seats: &mut [Seat],
) -> Result<Option<Full>, AllocError>
    requires { length seats.old ≤ 16 }
    ensures goes_on { IfOk result (λ full. (streams : List (List ℕ))
        → Stands (shelf_of (sectors_of D.sector_count) desk.old.control.disks) streams desk.old.control 0 seats.old
        → GoesOn (shelf_of (sectors_of D.sector_count) desk.old.control.disks) streams desk.new.control 0 seats.new full) }
    ensures over { IfOk result (λ full. full ≡ None → AreOver seats.new) }
    ensures number { length seats.new ≡ length seats.old }
    ensures disks { desk.new.control.disks ≡ desk.old.control.disks }
    ensures sessions { desk.new.control.sessions ≡ desk.old.control.sessions }
{
    while !are_over(seats) {
        let full = round(desk, seats)?;
        if full.is_some() {
            return Ok(full);
        }
    }
    Ok(None)
}
