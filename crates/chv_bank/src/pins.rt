// The outstanding pins.
ghost use Rattle.std.specs.Prelude.{◌≡◌, ◌+◌, ◌<◌, ◌≤◌, ◌^◌, ◌==◌, ◌&&◌, [], ◌++◌, ◌∷◌, not, length, find, filter, IfOk, OnOk, OnErr, vec_len};
ghost use Rattle.std.specs.List.{list_any};
ghost use Rattle.std.specs.Option.{option_map};
ghost use Rattle.chv_defs_memory.specs.BankState.{pins_block, PinOut};
ghost use Rattle.chv_bank.specs.CallerPins.{first_pinner, has_pinned, is_other, total, with_pin, without_pin, AreRows, CallerPins};

use crate::blocks::belongs;
use chv_defs_memory::Span;
use chv_lists::{Stretch, locate};
use std::alloc::{AllocError, Global};
use std::marker::Model;

/// An outstanding pin. Contracts see it as the definitions do.
#[derive(Drop)]
pub struct Pinned {
    caller: u32,
    number: u32,
    span: Span,
}

impl Model for Pinned {
    ghost use Rattle.chv_defs_memory.specs.BankState.{PinOut};

    ghost Value = { PinOut };

    ghost view = { λ p. record { caller = p.caller; number = p.number; span = p.span } };
}

impl Pinned {
    fn caller(&self) -> u32
        ensures { result ≡ self.now.caller }
    {
        self.caller
    }

    // Whether this is the caller's pin of the number.
    fn is_of(&self, caller: u32, number: u32) -> bool
        ensures { result ≡ (caller == self.now.caller && number == self.now.number) }
    {
        caller == self.caller && number == self.number
    }

    // Whether it pins a block of the bank.
    fn pins_block(&self, bank: u8, block: u32) -> bool
        ensures { result ≡ pins_block bank block self.now }
    {
        let first = self.span.first as u64;
        let end = first + self.span.count as u64;
        belongs(bank, block) && first <= block as u64 && (block as u64) < end
    }
}

/// A caller's outstanding pins, in the order in which they were made.
#[derive(Drop)]
struct PinRow {
    caller: u32,
    pins: Vec<Pinned>,
}

impl Model for PinRow {
    ghost use Rattle.chv_bank.specs.CallerPins.{CallerPins};

    ghost Value = { CallerPins };

    ghost view = { λ r. record { caller = r.caller; pins = r.pins.items } };
}

impl PinRow {
    // A row of one pin.
    fn of(alloc: Global, pin: Pinned) -> Result<PinRow, AllocError>
        ensures { IfOk result (λ row. row ≡ record { caller = pin.caller; pins = pin ∷ [] }) }
    {
        let caller = pin.caller();
        let mut pins = Vec::new(alloc);
        pins.push(pin)?;
        Ok(PinRow { caller, pins })
    }

    // Adds a pin, or leaves the row as it was.
    fn add(&mut self, pin: Pinned) -> Result<(), AllocError>
        ensures ok { OnOk result (self.new ≡ record self.old { pins = self.old.pins ++ pin ∷ [] }) }
        ensures err { OnErr result (self.new ≡ self.old) }
    {
        self.pins.push(pin)?;
        Ok(())
    }

    // Takes a caller's pin of a number out, and answers how many pins are fewer.
    fn remove(&mut self, caller: u32, number: u32) -> usize
        ensures others { self.new ≡ record self.old { pins = filter (is_other caller number) self.old.pins } }
        ensures fewer { result + length self.new.pins ≡ length self.old.pins }
    {
        let before = self.pins.len();
        remove_pin(&mut self.pins, caller, number);
        before - self.pins.len()
    }

    // Whether a pin of the row pins a block of the bank.
    fn pins_block(&self, bank: u8, block: u32) -> bool
        ensures { result ≡ has_pinned bank block self.now }
    {
        any_pins(self.pins.as_slice(), bank, block)
    }
}

/// The outstanding pins, those of each caller in a row of their own. Contracts see the rows, which ascend by caller.
#[derive(Drop)]
pub struct Pins {
    alloc: Global,
    rows: Vec<PinRow>,
    count: usize,
}

impl Model for Pins {
    ghost use Rattle.std.specs.Prelude.{◌≡◌, List};
    ghost use Rattle.chv_bank.specs.CallerPins.{total, AreRows, CallerPins};

    ghost Value = { List CallerPins };

    ghost view = { λ p. p.rows.items };

    ghost invariant = { λ p. AreRows 0 p.rows.items × (p.count ≡ total p.rows.items) };
}

impl Pins {
    /// No pin. Takes no memory.
    pub fn new(alloc: Global) -> Pins
        ensures { result ≡ [] }
    {
        Pins {
            alloc,
            rows: Vec::new(alloc),
            count: 0,
        }
    }

    /// How many pins are outstanding.
    pub fn len(&self) -> usize
        ensures { result ≡ total self.now }
    {
        self.count
    }

    /// Adds a pin, or leaves the pins as they were.
    pub fn push(&mut self, caller: u32, number: u32, span: Span) -> Result<(), AllocError>
        requires few { total self.old < 2 ^ 32 }
        ensures ok { OnOk result (self.new ≡ with_pin self.old (record { caller = caller; number = number; span = span })) }
        ensures err { OnErr result (self.new ≡ self.old) }
    {
        let pin = Pinned {
            caller,
            number,
            span,
        };
        add_pin(self.alloc, &mut self.rows, pin)?;
        self.count += 1;
        Ok(())
    }

    /// Takes a caller's pin of a number out. Takes no memory.
    pub fn remove(&mut self, caller: u32, number: u32)
        ensures { self.new ≡ without_pin self.old caller number }
    {
        self.count -= take_pin(&mut self.rows, caller, number);
    }

    /// Whether a pin pins a block of the bank.
    pub fn pins_block(&self, bank: u8, block: u32) -> bool
        ensures { result ≡ list_any (has_pinned bank block) self.now }
    {
        any_rows(self.rows.as_slice(), bank, block)
    }

    /// The lowest caller that pins a block of the bank, 0 where none does.
    pub fn lowest_pinner(&self, bank: u8, block: u32) -> u32
        ensures { result ≡ first_pinner bank self.now block }
    {
        match first_caller(self.rows.as_slice(), bank, block) {
            Some(caller) => caller,
            None => 0,
        }
    }
}

fn remove_pin(pins: &mut Vec<Pinned>, caller: u32, number: u32)
    ensures items { pins.new.items ≡ filter (is_other caller number) pins.old.items }
    ensures fewer { vec_len pins.new ≤ vec_len pins.old }
{
    pins.retain(
        |pin: &Pinned| -> bool
            ensures { result ≡ is_other caller number pin.now }
        { !pin.is_of(caller, number) },
    );
}

fn any_pins(pins: &[Pinned], bank: u8, block: u32) -> bool
    ensures { result ≡ list_any (pins_block bank block) pins.now }
{
    for pin in pins {
        if pin.pins_block(bank, block) {
            return true;
        }
    }
    false
}

fn any_rows(rows: &[PinRow], bank: u8, block: u32) -> bool
    ensures { result ≡ list_any (has_pinned bank block) rows.now }
{
    for row in rows {
        if row.pins_block(bank, block) {
            return true;
        }
    }
    false
}

// The caller of the first row with a pin that pins a block of the bank.
fn first_caller(rows: &[PinRow], bank: u8, block: u32) -> Option<u32>
    ensures { result ≡ option_map (λ (row : CallerPins). row.caller) (find (has_pinned bank block) rows.now) }
{
    for row in rows {
        if row.pins_block(bank, block) {
            return Some(row.caller);
        }
    }
    None
}

// A row is the stretch of its caller alone.
impl Stretch for PinRow {
    ghost start = { λ row. row.caller };

    ghost end = { λ row. row.caller + 1 };

    fn begins_by(&self, at: u64) -> bool {
        self.caller as u64 <= at
    }

    fn ends_by(&self, at: u64) -> bool {
        (self.caller as u64) < at
    }
}

// Adds a pin to its caller's row, or leaves the rows as they were.
fn add_pin(alloc: Global, rows: &mut Vec<PinRow>, pin: Pinned) -> Result<(), AllocError>
    requires { AreRows 0 rows.old.items }
    ensures ok { OnOk result (rows.new.items ≡ with_pin rows.old.items pin) }
    ensures err { OnErr result (rows.new.items ≡ rows.old.items) }
{
    let caller = pin.caller();
    match locate(rows.as_slice(), caller as u64) {
        Ok(place) => rows[place].add(pin),
        Err(place) => {
            let row = PinRow::of(alloc, pin)?;
            rows.insert(place, row)?;
            Ok(())
        }
    }
}

// Takes a caller's pin of a number out, and answers how many pins are fewer.
fn take_pin(rows: &mut Vec<PinRow>, caller: u32, number: u32) -> usize
    requires { AreRows 0 rows.old.items }
    ensures rows { rows.new.items ≡ without_pin rows.old.items caller number }
    ensures fewer { result + total rows.new.items ≡ total rows.old.items }
{
    match locate(rows.as_slice(), caller as u64) {
        Ok(place) => rows[place].remove(caller, number),
        Err(_) => 0,
    }
}
