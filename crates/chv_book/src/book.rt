// A value that keeps a history, and the lock round it.
use crate::kept::Kept;
use crate::pass::Pass;
use crate::turn::Turn;
use crate::view::{
    Draws, InTurns, Looks, Number, Opens, PassesOn, Settles, SplitsOff, TakesIn, ViewOf,
};
use atomic_table::{Seat, Table};
use std::alloc::Global;
use std::marker::{Brand, Model};
use std::sync::Wait;
use std::{hint, thread};

/// The word with the number of tickets drawn.
const DRAWN: usize = 0;

/// The word with the number of turns passed. It lies 128 bytes further, so that who draws does not disturb who waits.
const PASSED: usize = 16;

/// The words of a book whose first turn is still to be passed: one ticket is drawn.
const FIRST_TURN: [u64; 17] = [1, 0, 0, 0, 0, 0, 0, 0, 0, 0, 0, 0, 0, 0, 0, 0, 0];

/// How often a caller looks for its turn before it lets other threads run between two looks.
const LOOKS_AT_ONCE: u32 = 64;

/// A value that keeps a history, behind a lock. Passes take turns at it in the order of their tickets. Contracts see which book
/// it is.
pub struct Book<V: Kept> {
    table: Table<Option<V>, ViewOf<V::Entry>, (), InTurns<V>, Global>,
}

impl<V: Kept> Model for Book<V> {
    ghost use Rattle.std.specs.Prelude.{◌≡◌};
    ghost use Rattle.atomic_table.specs.Seated.{TableId};

    ghost Value = { TableId };

    ghost view = { λ b. b.table.shared.table_id };

    ghost invariant = { λ b. (b.table.shared.table_id.words ≡ 17) × (b.table.shared.table_id.slots ≡ 1) };
}

impl<V: Kept> Book<V> {
    ghost use Rattle.std.specs.Prelude.{◌≡◌, ◌≢◌, ℕ, List, [], ◌∷◌, ◌++◌, ◌<◌, ◌%◌, ◌^◌, IfOk, IfErr, false, Some};
    ghost use Rattle.chv_book.specs.declared.view.Stage.TheVariants.{Waits};
    ghost use Rattle.chv_defs_book.specs.Histories.{entries_by};
    ghost use Rattle.chv_defs_book.specs.Passes.{behind, first_pass, in_turn, split_off, taken_back, turn_of, with_out, Appends, Begins, IsFirst, IsFree, Joins, MayEnd, MaySplit};
    ghost use Rattle.chv_book.specs.TicketRule.{serving};
    ghost use Rattle.chv_book.specs.TicketSteps.{Begun};

    /// A book of this value, which has no entry yet, and the first pass, caller 0's. The value comes back for want of memory.
    pub fn new(alloc: Global, value: V) -> Result<(Book<V>, Pass<V::Entry>), V>
        requires { V.history value ≡ [] }
        ensures pass { IfOk result (λ made. made.1 ≡ first_pass made.0 (V.origin value) (V.side value)) }
        ensures back { IfErr result (λ given. given ≡ value) }
    {
        let (table, mut first) = match Table::vacant(alloc, &FIRST_TURN, 1, &()) {
            Ok(made) => made,
            Err(_) => return Err(value),
        };
        let value = Some(value);
        table
            .shared
            .compare_exchange_with::<Opens<V>>(&mut first, DRAWN, 1, 1, &value);
        match table.shared.exchange(&mut first, 0, value) {
            None => {}
            Some(_) => unreachable!(),
        }
        table.shared.fetch_add::<PassesOn<V>>(&mut first, PASSED, 1);
        Ok((Book { table }, Pass::of(0, 0, first)))
    }

    // Looks until its ticket is served, and takes the slot.
    fn await_turn<R: Wait>(&self, rt: &R, seat: &mut Seat<Option<V>, ViewOf<V::Entry>>, ticket: u64)
        requires book { seat.old.table_id ≡ self.now }
        requires waits { (seat.old.me.0.stage ≡ Waits) × (seat.old.me.1 ≡ []) × (ticket ≡ seat.old.me.0.ticket % 2 ^ 64) }
        ensures book { seat.new.table_id ≡ seat.old.table_id }
        ensures turn { (y : V) × (seat.new.me ≡ (serving (V.history y) (V.side y) seat.old.me.0, (0, Some y) ∷ [])) × Begun V.Entry.made_by V.history V.side V.origin V.Entry.is_still seat.old.me.0 y }
    {
        let mut looks = 0;
        for _ in rt.forever() {
            if self.table.shared.load::<Looks<V>>(seat, PASSED) == ticket {
                break;
            }
            if looks < LOOKS_AT_ONCE {
                looks += 1;
                hint::spin_loop();
            } else {
                thread::yield_now();
            }
        }
    }

    /// Begins a turn: hands the value out. It may wait for other callers, and no clause says that the turn comes.
    pub fn begin<R: Wait + Copy>(&self, rt: R, pass: &mut Pass<V::Entry>) -> Turn<V>
        requires book { pass.old.book ≡ self.now }
        requires free { IsFree pass.old }
        ensures pass { pass.new ≡ in_turn pass.old.caller }
        ensures turn { result ≡ turn_of pass.old result.value (V.history result.value) (V.side result.value) }
        ensures origin { pass.old.origin ≡ Some (V.origin result.value) }
        ensures value { Begins V.Entry.made_by V.Entry.is_still pass.old (V.history result.value) (V.side result.value) }
    {
        let mut seat = pass.take();
        let ticket = self.table.shared.fetch_add::<Draws<V>>(&mut seat, DRAWN, 1);
        self.await_turn(&rt, &mut seat, ticket);
        let Some(value) = self.table.shared.exchange(&mut seat, 0, None) else {
            unreachable!()
        };
        Turn::of(value, seat)
    }

    // Ends a turn, whatever it added of its own.
    fn end_turn(&self, pass: &mut Pass<V::Entry>, turn: Turn<V>)
        requires book { turn.book ≡ self.now }
        requires caller { turn.caller ≡ pass.old.caller }
        requires own { (added : List V.Entry) × (V.history turn.value ≡ turn.noted ++ added) × ((n : ℕ) → n ≢ turn.caller → entries_by V.Entry.made_by n added ≡ []) }
        requires origin { turn.origin ≡ Some (V.origin turn.value) }
        requires may { MayEnd V.Entry.made_by V.Entry.is_still turn (V.history turn.value) (V.side turn.value) }
        ensures { pass.new ≡ behind turn (V.history turn.value) (V.side turn.value) }
    {
        let (value, mut seat) = turn.into_parts();
        let entries = value.entries();
        match self.table.shared.exchange(&mut seat, 0, Some(value)) {
            None => {}
            Some(_) => unreachable!(),
        }
        self.table
            .shared
            .fetch_add::<PassesOn<V>>(&mut seat, PASSED, 1);
        pass.put(seat, entries);
    }

    /// Ends the pass's turn, in which one entry of the caller was appended.
    pub fn finish(&self, pass: &mut Pass<V::Entry>, turn: Turn<V>)
        requires book { turn.book ≡ self.now }
        // The pass is one that has a turn.
        requires away { pass.old.free ≡ false }
        requires caller { turn.caller ≡ pass.old.caller }
        requires one { Appends V.Entry.made_by turn.caller turn.noted (V.history turn.value) }
        requires origin { turn.origin ≡ Some (V.origin turn.value) }
        requires may { MayEnd V.Entry.made_by V.Entry.is_still turn (V.history turn.value) (V.side turn.value) }
        ensures { pass.new ≡ behind turn (V.history turn.value) (V.side turn.value) }
    {
        self.end_turn(pass, turn);
    }

    /// Ends the pass's turn, in which nothing was appended.
    pub fn leave(&self, pass: &mut Pass<V::Entry>, turn: Turn<V>)
        requires book { turn.book ≡ self.now }
        // The pass is one that has a turn.
        requires away { pass.old.free ≡ false }
        requires caller { turn.caller ≡ pass.old.caller }
        requires none { V.history turn.value ≡ turn.noted }
        requires origin { turn.origin ≡ Some (V.origin turn.value) }
        requires may { MayEnd V.Entry.made_by V.Entry.is_still turn (V.history turn.value) (V.side turn.value) }
        ensures { pass.new ≡ behind turn (V.history turn.value) (V.side turn.value) }
    {
        self.end_turn(pass, turn);
    }

    // `split`, for the number that the call picks.
    fn split_as<N: Number>(&self, first: &mut Pass<V::Entry>, caller: u32) -> Pass<V::Entry>
        requires number { caller ≡ N.number }
        requires book { first.old.book ≡ self.now }
        requires may { MaySplit V.Entry.made_by V.Entry.is_still caller first.old }
        ensures first { first.new ≡ with_out caller first.old }
        ensures pass { result ≡ split_off caller first.old }
    {
        let seen = first.seen();
        let mut seat = first.take();
        let new = self.table.shared.split_seat::<SplitsOff<N>>(&mut seat);
        first.put(seat, seen);
        Pass::of(caller, seen, new)
    }

    /// A pass for another caller, whose number is not out. It has seen what the first pass has, and takes over the entries that
    /// earlier passes of its number made.
    pub fn split(&self, first: &mut Pass<V::Entry>, caller: u32) -> Pass<V::Entry>
        requires book { first.old.book ≡ self.now }
        requires may { MaySplit V.Entry.made_by V.Entry.is_still caller first.old }
        ensures first { first.new ≡ with_out caller first.old }
        ensures pass { result ≡ split_off caller first.old }
    {
        self.split_as::<Brand>(first, caller)
    }

    /// Ends a pass: the first pass has then seen the longer of the two histories.
    pub fn end(&self, into: &mut Pass<V::Entry>, ended: Pass<V::Entry>)
        requires book { (into.old.book ≡ self.now) × (ended.book ≡ self.now) }
        requires free { IsFree into.old × IsFree ended }
        requires first { IsFirst into.old }
        ensures pass { into.new ≡ taken_back into.old ended }
        ensures seen { Joins V.Entry.made_by into.old.seen into.old.out ended.seen ended.caller into.new.seen }
    {
        let mine = into.seen();
        let theirs = ended.seen();
        let mut seat = into.take();
        self.table
            .shared
            .join_seat::<TakesIn>(&mut seat, ended.into_seat());
        // A join tells nothing. This look tells what the two histories have to do with each other.
        self.table.shared.load::<Settles<V>>(&mut seat, DRAWN);
        let seen = if mine <= theirs { theirs } else { mine };
        into.put(seat, seen);
    }

    /// Gives the value up, where no pass but the first is left.
    pub fn close(self, pass: Pass<V::Entry>) -> V
        requires book { pass.book ≡ self }
        requires free { IsFree pass }
        requires first { IsFirst pass }
        requires alone { pass.out ≡ [] }
        ensures history { V.history result ≡ pass.seen }
        ensures side { V.side result ≡ pass.side }
        ensures origin { Some (V.origin result) ≡ pass.origin }
    {
        let seat = pass.into_seat();
        let Book { table } = self;
        let mut closed = table.close_with(seat);
        let value = closed.take(0);
        closed.free();
        let Some(value) = value else { unreachable!() };
        value
    }
}
