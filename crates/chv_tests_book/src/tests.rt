// What comes out of turns, compared.
use super::*;
use chv_book::Book;
use std::alloc::{AllocError, Global};
use std::sync::Wait;
use std::test::*;

// The numbers from `first` on, as many as asked.
fn numbers_from(alloc: Global, first: u64, count: u64) -> Result<Vec<u64>, AllocError> {
    let mut numbers = Vec::new(alloc);
    for i in 0..count {
        numbers.push(first.wrapping_add(i))?;
    }
    Ok(numbers)
}

// What a caller entered, in its order.
fn entered_by(alloc: Global, tally: &Tally, caller: u32) -> Result<Vec<u64>, AllocError> {
    let mut numbers = Vec::new(alloc);
    for entry in &tally.entries {
        if entry.caller == caller {
            numbers.push(entry.number)?;
        }
    }
    Ok(numbers)
}

#[test]
fn two_threads_enter_a_thousand_each(rt: HostRuntime) -> Result<(), Fail> {
    let alloc = rt.alloc();
    let a = numbers_from(alloc, 0, 1000)?;
    let b = numbers_from(alloc, 5000, 1000)?;
    let Some((tally, n, m)) = two_callers(&rt, alloc, 7, a.as_slice(), b.as_slice()) else {
        return Err(Fail::new("no memory"));
    };
    assert_eq!(rt;
        (n, m, tally.entries.len(), tally.place),
        (1000, 1000, 2000, 7)
    );
    assert!(rt; entered_by(alloc, &tally, 1)? == a, "the first caller's");
    assert!(rt; entered_by(alloc, &tally, 2)? == b, "the second caller's");
    Ok(())
}

#[test]
fn four_threads_enter_five_hundred_each(rt: HostRuntime) -> Result<(), Fail> {
    let alloc = rt.alloc();
    let numbers = numbers_from(alloc, 100, 500)?;
    let Some(tally) = four_callers(&rt, alloc, 9, numbers.as_slice()) else {
        return Err(Fail::new("no memory"));
    };
    assert_eq!(rt; (tally.entries.len(), tally.place), (2000, 9));
    for caller in 1..5 {
        assert!(rt; entered_by(alloc, &tally, caller)? == numbers, "a caller's");
    }
    Ok(())
}

// Whether the value is there, unchanged, in the book or given back.
fn is_kept(alloc: Global) -> bool {
    let tally = match Book::new(alloc, Tally::new(alloc, 3)) {
        Ok((book, first)) => book.close(first),
        Err(given) => given,
    };
    tally.place == 3 && tally.entries.is_empty()
}

// `rt try --test --fail-alloc 1 -- a_value_is_kept_or_comes_back` lets the memory of the book be wanting.
#[test]
fn a_value_is_kept_or_comes_back(rt: HostRuntime) -> Result<(), Fail> {
    assert!(rt; is_kept(rt.alloc()));
    Ok(())
}

// What turns that are left find, and what the pass has seen behind each: before and behind an entry of its own.
fn looks_around<R: Wait + Copy>(rt: R, alloc: Global) -> Option<((u64, u64), (u64, u64), Tally)> {
    let Ok((book, mut first)) = Book::new(alloc, Tally::new(alloc, 3)) else {
        return None;
    };
    let none = look(rt, &book, &mut first);
    let before = (none, first.seen());
    enter(rt, &book, &mut first, 11);
    let one = look(rt, &book, &mut first);
    let behind = (one, first.seen());
    Some((before, behind, book.close(first)))
}

#[test]
fn a_turn_that_is_left_changes_nothing(rt: HostRuntime) -> Result<(), Fail> {
    let alloc = rt.alloc();
    let Some((before, behind, tally)) = looks_around(&rt, alloc) else {
        return Err(Fail::new("no memory"));
    };
    assert_eq!(rt; before, (0, 0));
    assert_eq!(rt; behind, (1, 1));
    assert_eq!(rt; (tally.entries.len(), tally.place), (1, 3));
    assert!(rt; entered_by(alloc, &tally, 0)? == numbers_from(alloc, 11, 1)?);
    Ok(())
}

// A caller enters two numbers, its pass is ended, and a pass of the same number enters a third. How many entries that pass had
// seen as it began.
fn comes_again<R: Wait + Copy>(rt: R, alloc: Global) -> Option<(Tally, u64)> {
    let Ok((book, mut first)) = Book::new(alloc, Tally::new(alloc, 3)) else {
        return None;
    };
    let mut pass = book.split(&mut first, 5);
    enter(rt, &book, &mut pass, 20);
    enter(rt, &book, &mut pass, 21);
    book.end(&mut first, pass);
    let mut again = book.split(&mut first, 5);
    let seen = again.seen();
    enter(rt, &book, &mut again, 22);
    book.end(&mut first, again);
    Some((book.close(first), seen))
}

#[test]
fn a_number_is_split_off_again(rt: HostRuntime) -> Result<(), Fail> {
    let alloc = rt.alloc();
    let Some((tally, seen)) = comes_again(&rt, alloc) else {
        return Err(Fail::new("no memory"));
    };
    assert_eq!(rt; (seen, tally.entries.len()), (2, 3));
    assert!(rt; entered_by(alloc, &tally, 5)? == numbers_from(alloc, 20, 3)?);
    Ok(())
}
