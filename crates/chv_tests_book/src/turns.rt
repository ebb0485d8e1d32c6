// Turns at a tally.
ghost use Rattle.std.specs.Prelude.{◌≡◌, ◌≢◌, ◌++◌, ◌∷◌, [], length, take, true, false};
ghost use Rattle.chv_defs_book.specs.Histories.{entries_by, StartsWith};
ghost use Rattle.chv_defs_book.specs.Passes.{IsFirst, IsFree};
ghost use Rattle.chv_tests_book.specs.Entered.{caller_of, entered, HasEntered};

use crate::tally::{Entered, Tally};
use chv_book::{Book, Kept, Pass};
use std::sync::Wait;

/// One turn with one entry. For want of memory it is left, and the answer is `false`.
pub fn enter<R: Wait + Copy>(
    rt: R,
    book: &Book<Tally>,
    pass: &mut Pass<Entered>,
    number: u64,
) -> bool
    requires book { pass.old.book ≡ book.now }
    requires free { IsFree pass.old }
    ensures same { (pass.new.book ≡ pass.old.book) × (pass.new.caller ≡ pass.old.caller) × IsFree pass.new × (pass.new.out ≡ pass.old.out) }
    ensures entered { result ≡ true → entries_by caller_of pass.old.caller pass.new.seen ≡ entries_by caller_of pass.old.caller pass.old.seen ++ entered pass.old.caller (number ∷ []) }
    ensures left { result ≡ false → entries_by caller_of pass.old.caller pass.new.seen ≡ entries_by caller_of pass.old.caller pass.old.seen }
{
    let caller = pass.caller();
    let mut turn = book.begin(rt, pass);
    let done = turn.value().enter(caller, number).is_ok();
    if done {
        book.finish(pass, turn);
    } else {
        book.leave(pass, turn);
    }
    done
}

/// One turn that is left: how many entries there are. The first pass finds what it has seen where no number is out.
pub fn look<R: Wait + Copy>(rt: R, book: &Book<Tally>, pass: &mut Pass<Entered>) -> u64
    requires book { pass.old.book ≡ book.now }
    requires free { IsFree pass.old }
    ensures same { (pass.new.book ≡ pass.old.book) × (pass.new.caller ≡ pass.old.caller) × IsFree pass.new × (pass.new.out ≡ pass.old.out) }
    ensures seen { result ≡ length pass.new.seen }
    ensures more { StartsWith pass.new.seen pass.old.seen }
    ensures alone { IsFirst pass.old → pass.old.out ≡ [] → pass.new.seen ≡ pass.old.seen }
{
    let mut turn = book.begin(rt, pass);
    let entries = turn.value().entries();
    book.leave(pass, turn);
    entries
}

/// Enters all numbers, one turn each, until memory is wanting; and how many it entered.
pub fn enter_all<R: Wait + Copy>(
    rt: R,
    book: &Book<Tally>,
    mut pass: Pass<Entered>,
    numbers: &[u64],
) -> (Pass<Entered>, usize)
    requires pass { HasEntered book.now pass.caller [] pass }
    ensures { HasEntered book.now pass.caller (take result.1 numbers.now) result.0 }
{
    let mut count = 0;
    for number in numbers {
        if !enter(rt, book, &mut pass, *number) {
            break;
        }
        count += 1;
    }
    (pass, count)
}
