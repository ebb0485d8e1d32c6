// The banks of all zones, as their owner reaches them: each call once with ample memory.
ghost use Rattle.chv_defs_memory.specs.declared.bank.BankCall.TheVariants as call;
ghost use Rattle.chv_defs_memory.specs.declared.bank.BankReply.TheVariants as reply;
ghost use Rattle.chv_defs_memory.specs.Zones.{most_zones, OtherZonesStay};
ghost use Rattle.chv_guest.specs.LentBanks.{fresh_zones, known_at};
ghost use Rattle.std.specs.Prelude.{◌≡◌, ◌<◌, [], ◌∷◌, true, IfOk, length};

use crate::pages::is_page;
use chv_bank::Bank;
use chv_defs_base::{BookId, Bytes, Full};
use chv_defs_memory::{BankCall, BankEntry, BankReply, Refusal, Zones};
use chv_guest::LentBanks;
use chv_tests_steps::step;
use std::alloc::{AllocError, Global};
use std::test::Fail;

// Makes room for two entries in a zone, and for pages.
fn has_room(zones: &mut LentBanks, zone: u8, pages: u32) -> Result<bool, AllocError>
    requires zone { zone < most_zones }
    requires home { zones.old.lent ≡ [] }
    requires fresh { known_at zones.old.books zone 0 ≡ record { history = []; entries = 0; pages = 0 } }
    ensures made { IfOk result (λ made. made ≡ true → known_at zones.new.books zone 0 ≡ record { history = []; entries = 2; pages = pages }) }
    ensures home { zones.new.lent ≡ [] }
    ensures others { OtherZonesStay (known_at zones.old.books) (known_at zones.new.books) zone }
{
    Ok(zones.room((), zone, 2, pages)?.is_ok())
}

// Shapes the bank of a zone.
fn shape(zones: &mut LentBanks, zone: u8) -> bool
    requires zone { zone < most_zones }
    requires home { zones.old.lent ≡ [] }
    requires history { (known_at zones.old.books zone 0).history ≡ [] }
    requires entries { (known_at zones.old.books zone 0).entries ≡ 2 }
    ensures home { zones.new.lent ≡ [] }
    ensures shaped { known_at zones.new.books zone 0 ≡ record (known_at zones.old.books zone 0) {
      history = record { caller = 0; call = call.Shape 256; reply = reply.Done } ∷ [];
      entries = 1;
    } }
{
    zones.owner((), zone, 0, &BankCall::Shape(256)) == BankReply::Done
}

// Whether a history is one entry, by which the owner shaped the bank.
fn is_shape(history: &[BankEntry]) -> bool {
    match history {
        [entry] => {
            entry.caller == 0
                && matches!(entry.call, BankCall::Shape(256))
                && entry.reply == BankReply::Done
        }
        _ => false,
    }
}

// A bank is shaped, and no other zone's. Then it is wiped.
fn wiped(zones: &mut LentBanks) -> Result<(), Fail>
    requires { zones.old ≡ fresh_zones }
{
    step("wipe: room", has_room(zones, 0, 0)?)?;
    step("wipe: shape", shape(zones, 0))?;
    step(
        "wipe: the entry of the shape",
        is_shape(zones.history(0, 0)),
    )?;
    step(
        "wipe: no entry in another zone",
        zones.history(1, 0).is_empty(),
    )?;
    let reply = zones.owner((), 0, 0, &BankCall::Wipe);
    step("wipe: the reply", reply == BankReply::Done)?;
    step("wipe: its entry", zones.history(0, 0).len() == 2)
}

// No room beyond the limit, which leaves room for one entry.
fn filled_up(zones: &mut LentBanks) -> Result<(), Fail>
    requires { zones.old ≡ fresh_zones }
{
    let full = Refusal::Full(Full {
        book: BookId::Bank { zone: 0, bank: 0 },
        entries: 0,
        bytes: 0,
    });
    let is_full = zones
        .room((), 0, 1_048_577, 0)?
        .is_err_and(|why| why == full);
    step("room: one entry too many", is_full)?;
    step("room: one entry", zones.room((), 0, 1, 0)?.is_ok())?;
    zones.give_back((), 0, 0);
    step("room: no pages", zones.pages((), 0, 0)?.is_empty())
}

// A page that is zero but for its eighth byte.
fn page_of_five(alloc: Global) -> Result<Bytes, AllocError>
    ensures { IfOk result (λ bytes. length bytes ≡ 4096) }
{
    let mut bytes = vec![in alloc; 0; 4096]?;
    bytes[7] = 5;
    Ok(Bytes::new(bytes))
}

// Fills page 3 of the first block of the last zone.
fn fill(zones: &mut LentBanks, bytes: Bytes) -> bool
    requires bytes { length bytes ≡ 4096 }
    requires room { known_at zones.old.books 7 0 ≡ record {
      history = record { caller = 0; call = call.Shape 256; reply = reply.Done } ∷ [];
      entries = 1;
      pages = 1;
    } }
{
    let fill = BankCall::Fill {
        block: 0,
        page: 3,
        bytes,
    };
    zones.owner((), 7, 0, &fill) == BankReply::Done
}

// Whether the last zone lists that page, and no other.
fn lists_five(zones: &mut LentBanks) -> Result<bool, AllocError> {
    let pages = zones.pages((), 7, 0)?;
    Ok(match pages.as_slice() {
        [page] => is_page(page, &(0, 3, 7, 5)),
        _ => false,
    })
}

// A page is filled in the last zone and listed there, and in no other.
fn filled(alloc: Global, zones: &mut LentBanks) -> Result<(), Fail>
    requires { zones.old ≡ fresh_zones }
{
    step("fill: room", has_room(zones, 7, 1)?)?;
    step("fill: shape", shape(zones, 7))?;
    step("fill: the reply", fill(zones, page_of_five(alloc)?))?;
    step("fill: the page is listed", lists_five(zones)?)?;
    step(
        "fill: no page in another zone",
        zones.pages((), 0, 0)?.is_empty(),
    )
}

// Whether one of these banks was shaped.
fn is_shaped(banks: Vec<Bank>) -> bool {
    let mut shaped = false;
    for bank in banks {
        let history = bank.into_history();
        shaped |= is_shape(history.as_slice());
    }
    shaped
}

#[test]
fn zones(rt: HostRuntime) -> Result<(), Fail> {
    let mut first = LentBanks::new(rt.alloc())?;
    wiped(&mut first)?;
    let mut second = LentBanks::new(rt.alloc())?;
    filled_up(&mut second)?;
    let mut third = LentBanks::new(rt.alloc())?;
    filled(rt.alloc(), &mut third)?;
    let mut fourth = LentBanks::new(rt.alloc())?;
    step(
        "banks: room and shape",
        has_room(&mut fourth, 0, 0)? && shape(&mut fourth, 0),
    )?;
    step("banks: given up", is_shaped(fourth.into_banks()))?;
    Ok(())
}
