// A session that is played, at its stream, and its turns.
ghost use Rattle.std.specs.Prelude.{◌≡◌};
ghost use Rattle.chv_session.specs.Step as step;

use crate::asked::stream_bytes;
use crate::desk::PlayDesk;
use crate::stream::StreamLink;
use chv_defs::{Asked, Full};
use chv_io::Disk;
use chv_session::{Next, Session};
use std::alloc::{AllocError, Global};

/// A session that is played, at its stream.
#[derive(Drop)]
pub(crate) struct Seat {
    pub(crate) session: Session,
    pub(crate) link: StreamLink,
    /// Whether the session has ended.
    pub(crate) is_over: bool,
    ghost over: { is_over ≡ step.is_over session.state },
}

impl Seat {
    ghost use Rattle.std.specs.Prelude.{◌≡◌, false, IfOk};
    ghost use Rattle.chv_defs_api.specs.Desks.{IsSession};
    ghost use Rattle.chv_defs.specs.Schedule.{stream_of};
    ghost use Rattle.chv_control.specs.Shelf.{shelf_of, sectors_of};
    ghost use Rattle.chv_play.specs.Played.{IsNewSeat};
    ghost use Rattle.chv_play.specs.Round.{TurnsOut, IsServed};

    /// A seat for a session with these requests.
    pub(crate) fn new(alloc: Global, requests: &[Asked]) -> Result<Seat, AllocError>
        ensures { IfOk result (λ seat. IsNewSeat (stream_of requests.now) seat) }
    {
        let bytes = stream_bytes(alloc, requests)?;
        Ok(Seat {
            session: Session::new(alloc)?,
            link: StreamLink::new(bytes),
            is_over: false,
        })
    }

    /// One turn: the session takes the first turn that it has ahead of it; or a book is full for its call, which is
    /// answered.
    fn take_turn<D: Disk>(
        &mut self,
        desk: &mut PlayDesk<D>,
        caller: u32,
    ) -> Result<Option<Full>, AllocError>
        requires session { IsSession caller }
        requires open { self.old.is_over ≡ false }
        ensures turn { IfOk result (λ full. TurnsOut (shelf_of (sectors_of D.sector_count) desk.old.control.disks) caller
            desk.old.control desk.new.control self.old self.new full) }
        ensures disks { desk.new.control.disks ≡ desk.old.control.disks }
        ensures sessions { desk.new.control.sessions ≡ desk.old.control.sessions }
    {
        desk.turn_to(caller);
        let said = self.session.next((), &mut self.link, desk);
        self.is_over = !matches!(said, Ok(Next::Answered));
        said?;
        Ok(desk.full())
    }

    /// A seat's part in a round: one turn, where its session has not ended.
    pub(crate) fn serve<D: Disk>(
        &mut self,
        desk: &mut PlayDesk<D>,
        caller: u32,
    ) -> Result<Option<Full>, AllocError>
        requires { IsSession caller }
        ensures served { IfOk result (λ full. IsServed (shelf_of (sectors_of D.sector_count) desk.old.control.disks) caller
            desk.old.control desk.new.control self.old self.new full) }
        ensures disks { desk.new.control.disks ≡ desk.old.control.disks }
        ensures sessions { desk.new.control.sessions ≡ desk.old.control.sessions }
    {
        if self.is_over {
            return Ok(None);
        }
        self.take_turn(desk, caller)
    }
}
