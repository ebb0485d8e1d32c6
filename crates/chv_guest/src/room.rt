// Room in the banks of a zone.
ghost use Rattle.std.specs.Prelude.{◌≡◌, ◌<◌, ◌≤◌, ◌+◌, ◌*◌, if◌then◌else◌, All, IfOk, length, map};
ghost use Rattle.chv_defs_memory.specs.BankBook.{refused_or, BankBook};
ghost use Rattle.chv_defs_memory.specs.BankState.{banks};
ghost use Rattle.chv_guest.specs.LentBanks.{banks_of, change_zone, place_of};
ghost use Rattle.chv_guest.specs.Room.{is_made, keep_places, refusal_in, with_places, without_places};

use chv_bank::Bank;
use chv_defs_memory::{BANKS, Refusal};
use std::alloc::AllocError;

// The place of a bank.
pub fn place_of(zone: u8, bank: u8) -> usize
    ensures { result ≡ place_of zone bank }
{
    zone as usize * BANKS as usize + bank as usize
}

/// Reserves places for further entries and pages in each bank of a zone. The answer is the first refusal that is due, if
/// one is; then and at an `Err` every bank is as before.
pub fn make_room(
    all: &mut Vec<Bank>,
    zone: u8,
    entries: u32,
    pages: u32,
) -> Result<Result<(), Refusal>, AllocError>
    requires zone { zone * banks + banks ≤ length all.old.items }
    requires unreserved { All (λ (b : BankBook). b.pages ≡ 0) (banks_of zone all.old.items) }
    ensures answer { IfOk result (λ answer. answer ≡ refused_or (refusal_in (banks_of zone all.old.items) entries pages) tt) }
    ensures made { all.new.items ≡ (if is_made result then change_zone zone (with_places entries pages) all.old.items else all.old.items) }
{
    let start = place_of(zone, 0);
    make_room_in(&mut all[start..start + BANKS as usize], entries, pages)
}

/// Gives reserved entries back in each bank of a zone, until `keep` are left, and every reserved page.
pub fn keep_room(all: &mut Vec<Bank>, zone: u8, keep: u32)
    requires { zone * banks + banks ≤ length all.old.items }
    ensures { all.new.items ≡ change_zone zone (keep_places keep) all.old.items }
{
    let start = place_of(zone, 0);
    keep_room_in(&mut all[start..start + BANKS as usize], keep);
}

// Reserves places for further entries and pages in each of these banks. The answer is the first refusal that is due, if
// one is; then and at an `Err` every bank is as before.
fn make_room_in(
    banks: &mut [Bank],
    entries: u32,
    pages: u32,
) -> Result<Result<(), Refusal>, AllocError>
    requires { All (λ (b : BankBook). b.pages ≡ 0) banks.old }
    ensures answer { IfOk result (λ answer. answer ≡ refused_or (refusal_in banks.old entries pages) tt) }
    ensures made { banks.new ≡ (if is_made result then map (with_places entries pages) banks.old else banks.old) }
{
    for place in 0..banks.len() {
        let answer = banks[place].room(entries, pages);
        if !is_made(&answer) {
            undo_room(&mut banks[..place], entries);
            return answer;
        }
    }
    Ok(Ok(()))
}

// Whether room was made.
fn is_made(answer: &Result<Result<(), Refusal>, AllocError>) -> bool
    ensures { result ≡ is_made answer.now }
{
    match answer {
        Ok(made) => made.is_ok(),
        Err(_) => false,
    }
}

// Gives further entries back again in each of these banks, and every page.
fn undo_room(banks: &mut [Bank], entries: u32)
    ensures { banks.new ≡ map (without_places entries) banks.old }
{
    for bank in banks.iter_mut() {
        bank.give_back(bank.reserved().saturating_sub(entries));
    }
}

// Gives reserved entries back in each of these banks, until `keep` are left, and every reserved page.
fn keep_room_in(banks: &mut [Bank], keep: u32)
    ensures { banks.new ≡ map (keep_places keep) banks.old }
{
    for bank in banks.iter_mut() {
        bank.give_back(keep);
    }
}
