// What a seat of a book's table knows, and what each step of the table tells. No value of these types is made.
use crate::kept::Kept;
use atomic_table::{Join, Play, Split, TableRule};
use chv_defs_book::HistoryEntry;
use std::collections::LinkedList;
use std::marker::{Brand, PhantomData};

/// Where a seat stands.
pub enum Stage {
    /// It is the first one, and the value is not in the slot yet.
    Opening,
    Idle,
    /// It holds a ticket that was not served yet.
    Waits,
    /// Its turn has come, and it has the slot.
    Serves,
    /// It took another seat in, and was not told yet what that comes to.
    Joined,
    /// Another seat took it in.
    Spent,
}

/// What a seat knows.
pub struct View<E, O> {
    pub caller: u32,
    pub stage: Stage,
    pub ticket: u64,
    pub seen: LinkedList<E>,
    pub side: (u64, u64),
    pub out: LinkedList<u32>,
    pub origin: Option<O>,
    /// The history and the side that it noted when its turn came.
    pub noted: LinkedList<E>,
    pub noted_side: (u64, u64),
    /// What it had seen and which numbers were out before it took another seat in, and what that one had seen, and whose it was.
    pub before: LinkedList<E>,
    pub out_before: LinkedList<u32>,
    pub back: LinkedList<E>,
    pub back_caller: u32,
}

/// The view of a seat at a history of these entries.
pub type ViewOf<E> = View<E, <E as HistoryEntry>::Origin>;

/// The rule of a book's table.
pub struct InTurns<V> {
    marker: PhantomData<V>,
}

impl<V: Kept> TableRule<Option<V>, ViewOf<V::Entry>, ()> for InTurns<V> {
    ghost use Rattle.chv_book.specs.TicketRule.{GoesInTurns, opening};

    ghost holds = { λ _. GoesInTurns V.Entry.made_by V.history V.side V.origin V.Entry.is_still };

    ghost first = { λ _. opening };
}

/// The value comes into the slot.
pub struct Opens<V> {
    marker: PhantomData<V>,
}

impl<V: Kept> Play<Option<V>, ViewOf<V::Entry>> for Opens<V> {
    ghost use Rattle.chv_book.specs.TicketSteps.{opens};

    ghost then = { opens V.side V.origin };
}

/// A ticket is drawn.
pub struct Draws<V> {
    marker: PhantomData<V>,
}

impl<V: Kept> Play<Option<V>, ViewOf<V::Entry>> for Draws<V> {
    ghost use Rattle.chv_book.specs.TicketSteps.{draws};

    ghost then = { draws };
}

/// A look whether the ticket is served. Where it is, the seat takes the slot.
pub struct Looks<V> {
    marker: PhantomData<V>,
}

impl<V: Kept> Play<Option<V>, ViewOf<V::Entry>> for Looks<V> {
    ghost use Rattle.chv_book.specs.TicketSteps.{looks};

    ghost then = { looks V.Entry.made_by V.history V.side V.origin V.Entry.is_still };
}

/// The turn is passed, and the slot given back.
pub struct PassesOn<V> {
    marker: PhantomData<V>,
}

impl<V: Kept> Play<Option<V>, ViewOf<V::Entry>> for PassesOn<V> {
    ghost use Rattle.chv_book.specs.TicketSteps.{passes_on};

    ghost then = { passes_on V.history V.side };
}

/// A look that tells what taking a seat in came to.
pub struct Settles<V> {
    marker: PhantomData<V>,
}

impl<V: Kept> Play<Option<V>, ViewOf<V::Entry>> for Settles<V> {
    ghost use Rattle.chv_book.specs.TicketSteps.{settles};

    ghost then = { settles V.Entry.made_by };
}

/// The number of a new pass, which a call picks.
pub trait Number {
    ghost use Rattle.std.specs.Prelude.{ℕ};

    ghost number: { ℕ };
}

impl Number for Brand {
    ghost number = { 0 };
}

/// A seat for another caller is cut off.
pub struct SplitsOff<N> {
    marker: PhantomData<N>,
}

impl<E, O, N: Number> Split<View<E, O>> for SplitsOff<N> {
    ghost use Rattle.chv_book.specs.TicketRule.{lending, newcomer};

    ghost left = { lending N.number };

    ghost right = { newcomer N.number };
}

/// A seat is taken in.
pub struct TakesIn;

impl<E, O> Join<View<E, O>> for TakesIn {
    ghost use Rattle.chv_book.specs.TicketRule.{rejoined, spent};

    ghost both = { rejoined };

    ghost spent = { spent };
}
