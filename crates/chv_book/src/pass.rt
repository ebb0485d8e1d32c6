// The right to take turns.

use crate::view::ViewOf;
use atomic_table::{Badge, Seat};
use chv_defs_book::HistoryEntry;
use std::marker::Model;

/// A caller's right to take turns at a book, with what it has seen of the history. It may be let go; then its number stays out,
/// and the book is not closed.
pub struct Pass<E: HistoryEntry> {
    caller: u32,
    seen: u64,
    badge: Badge<ViewOf<E>>,
}

impl<E: HistoryEntry> Model for Pass<E> {
    ghost use Rattle.std.specs.Prelude.{◌≡◌, ◌⊎◌, [], ◌∷◌};
    ghost use Rattle.chv_book.specs.declared.view.View.{View};
    ghost use Rattle.chv_defs_book.specs.Passes.{PassView};
    ghost use Rattle.chv_book.specs.PassSeats.{pass_of, Rests};

    ghost Value = { PassView E E.Origin };

    ghost view = { λ p. pass_of p.badge.table_id p.caller p.badge.views };

    ghost invariant = { λ p. (p.badge.views ≡ []) ⊎ ((v : View E E.Origin) × (p.badge.views ≡ v ∷ []) × Rests p.caller p.seen v) };
}

impl<E: HistoryEntry> Drop for Pass<E> {
    fn drop(self) {
        let Self {
            caller: _,
            seen: _,
            badge: _,
        } = self;
    }
}

impl<E: HistoryEntry> Pass<E> {
    ghost use Rattle.std.specs.Prelude.{◌≡◌, [], length};
    ghost use Rattle.chv_book.specs.declared.view.Stage.TheVariants.{Idle};
    ghost use Rattle.chv_defs_book.specs.Passes.{in_turn, IsFree};
    ghost use Rattle.chv_book.specs.PassSeats.{Rests, rested};

    /// Whose it is. 0 is the owner of the value, who has the first pass.
    pub fn caller(&self) -> u32
        ensures { result ≡ self.now.caller }
    {
        self.caller
    }

    /// How many entries it has seen.
    pub fn seen(&self) -> u64
        ensures { IsFree self.now → result ≡ length self.now.seen }
    {
        self.seen
    }

    pub(crate) fn of<S>(caller: u32, seen: u64, seat: Seat<S, ViewOf<E>>) -> Pass<E>
        requires empty { seat.me.1 ≡ [] }
        requires rests { Rests caller seen seat.me.0 }
        ensures { result ≡ rested seat.table_id caller seat.me.0 }
    {
        Pass {
            caller,
            seen,
            badge: seat.into_badge(),
        }
    }

    pub(crate) fn into_seat<S>(self) -> Seat<S, ViewOf<E>>
        requires { IsFree self }
        ensures pass { self ≡ rested result.table_id self.caller result.me.0 }
        ensures empty { result.me.1 ≡ [] }
        ensures idle { result.me.0.stage ≡ Idle }
        ensures caller { result.me.0.caller ≡ self.caller }
    {
        let Pass {
            caller: _,
            seen: _,
            badge,
        } = self;
        badge.into_seat()
    }

    // Takes the seat out, for a step.
    pub(crate) fn take<S>(&mut self) -> Seat<S, ViewOf<E>>
        requires { IsFree self.old }
        ensures pass { self.old ≡ rested result.table_id self.old.caller result.me.0 }
        ensures empty { result.me.1 ≡ [] }
        ensures idle { result.me.0.stage ≡ Idle }
        ensures caller { result.me.0.caller ≡ self.old.caller }
        ensures away { self.new ≡ in_turn self.old.caller }
    {
        let badge = std::mem::replace(&mut self.badge, Badge::blank());
        badge.into_seat()
    }

    // Puts it back.
    pub(crate) fn put<S>(&mut self, seat: Seat<S, ViewOf<E>>, seen: u64)
        requires empty { seat.me.1 ≡ [] }
        requires rests { Rests self.old.caller seen seat.me.0 }
        ensures { self.new ≡ rested seat.table_id self.old.caller seat.me.0 }
    {
        self.badge = seat.into_badge();
        self.seen = seen;
    }
}
