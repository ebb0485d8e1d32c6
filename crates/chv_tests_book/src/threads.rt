// Callers on threads of their own.
ghost use Rattle.std.specs.Prelude.{◌≡◌, [], take, IfSome};
ghost use Rattle.chv_defs_book.specs.Histories.{entries_by};
ghost use Rattle.chv_tests_book.specs.Entered.{caller_of, entered, HasEntered};

use crate::tally::{Entered, Tally};
use crate::turns::enter_all;
use chv_book::{Book, Pass};
use std::alloc::Global;
use std::sync::Wait;
use std::thread;
use std::thread::Threads;

// Two callers enter their numbers, each on a thread, and how many they entered.
fn enter_beside<R: Threads + Wait + Copy + Send + Sync>(
    rt: R,
    book: &Book<Tally>,
    one: Pass<Entered>,
    other: Pass<Entered>,
    a: &[u64],
    b: &[u64],
) -> ((Pass<Entered>, usize), (Pass<Entered>, usize))
    requires one { HasEntered book.now one.caller [] one }
    requires other { HasEntered book.now other.caller [] other }
    ensures one { HasEntered book.now one.caller (take result.0.1 a.now) result.0.0 }
    ensures other { HasEntered book.now other.caller (take result.1.1 b.now) result.1.0 }
{
    thread::join(
        &rt,
        move ||
            requires { HasEntered book.now one.caller [] one }
            ensures { HasEntered book.entry.now one.caller (take result.1 a.entry.now) result.0 }
        { enter_all(rt, book, one, a) },
        move ||
            requires { HasEntered book.now other.caller [] other }
            ensures { HasEntered book.entry.now other.caller (take result.1 b.entry.now) result.0 }
        { enter_all(rt, book, other, b) },
    )
}

/// Two callers enter their numbers, each on a thread of its own, a turn each. The closed book has the entries of each in its
/// order, as many as it could enter. `None` comes for want of memory.
pub fn two_callers<R: Threads + Wait + Copy + Send + Sync>(
    rt: R,
    alloc: Global,
    place: u8,
    a: &[u64],
    b: &[u64],
) -> Option<(Tally, usize, usize)>
    ensures one { IfSome result (λ r. entries_by caller_of 1 r.0.entries.items ≡ entered 1 (take r.1 a.now)) }
    ensures other { IfSome result (λ r. entries_by caller_of 2 r.0.entries.items ≡ entered 2 (take r.2 b.now)) }
    ensures place { IfSome result (λ r. r.0.place ≡ place) }
{
    let Ok((book, mut first)) = Book::new(alloc, Tally::new(alloc, place)) else {
        return None;
    };
    let one = book.split(&mut first, 1);
    let other = book.split(&mut first, 2);
    let ((one, n), (other, m)) = enter_beside(rt, &book, one, other, a, b);
    book.end(&mut first, one);
    book.end(&mut first, other);
    Some((book.close(first), n, m))
}

/// Four callers enter the same numbers. `None` comes for want of memory.
pub fn four_callers<R: Threads + Wait + Copy + Send + Sync>(
    rt: R,
    alloc: Global,
    place: u8,
    numbers: &[u64],
) -> Option<Tally>
    ensures place { IfSome result (λ tally. tally.place ≡ place) }
{
    let Ok((book, mut first)) = Book::new(alloc, Tally::new(alloc, place)) else {
        return None;
    };
    let a = book.split(&mut first, 1);
    let b = book.split(&mut first, 2);
    let c = book.split(&mut first, 3);
    let d = book.split(&mut first, 4);
    let shared = &book;
    let (((a, _), (b, _)), ((c, _), (d, _))) = thread::join(
        &rt,
        move ||
            requires { HasEntered shared.now 1 [] a × HasEntered shared.now 2 [] b }
            ensures { HasEntered shared.entry.now 1 (take result.0.1 numbers.entry.now) result.0.0 × HasEntered shared.entry.now 2 (take result.1.1 numbers.entry.now) result.1.0 }
        { enter_beside(rt, shared, a, b, numbers, numbers) },
        move ||
            requires { HasEntered shared.now 3 [] c × HasEntered shared.now 4 [] d }
            ensures { HasEntered shared.entry.now 3 (take result.0.1 numbers.entry.now) result.0.0 × HasEntered shared.entry.now 4 (take result.1.1 numbers.entry.now) result.1.0 }
        { enter_beside(rt, shared, c, d, numbers, numbers) },
    );
    book.end(&mut first, a);
    book.end(&mut first, b);
    book.end(&mut first, c);
    book.end(&mut first, d);
    Some(book.close(first))
}
