// A line outside of the sections.
ghost use Rattle.std.specs.Prelude.{◌≡◌, ◌≤◌, option_map, IfOk};
ghost use Rattle.chv_defs_scene.specs.ScenarioLines as line;
ghost use Rattle.chv_scene.specs.Meanings.{before_of, opening_of};

use crate::fields::{at_space, has_space, is_word, ranged};
use chv_defs_base::{Reason, is_name};

/// How many sessions a scenario may have.
const MOST_SESSIONS: usize = 16;

/// How many sectors a disk may have.
const MOST_SECTORS: u64 = 8192;

/// The highest number of a vCPU.
const LAST_VCPU: u64 = 15;

/// How much fuel a vCPU may have.
const MOST_FUEL: u64 = 1_048_576;

/// What stands before a line outside of the sections.
#[derive(Clone, Copy)]
pub(crate) struct Passed {
    /// The lowest number that a vCPU's section can still have.
    pub(crate) next_vcpu: u64,
    pub(crate) sessions: usize,
    pub(crate) has_order: bool,
}

/// What such a line opens.
#[derive(Clone, Copy)]
pub(crate) enum Opens {
    Vcpu { vcpu: u8, fuel: u64 },
    Session,
    Order,
}

/// What the line opens, or why it fails.
pub(crate) fn top_line(passed: &Passed, text: &[u8]) -> Result<Opens, Reason>
    ensures { opening_of result ≡ line.top_word (before_of passed.now) (line.at_space text.now).0 (line.at_space text.now).1 }
{
    let (word, fields) = at_space(text);
    if is_word(word, "session") {
        session(passed, fields)
    } else if is_word(word, "vcpu") {
        vcpu(passed, fields)
    } else if is_word(word, "order") {
        order(passed, fields)
    } else if is_word(word, "disk") {
        Err(disk(passed, fields))
    } else {
        Err(Reason::UnknownWord)
    }
}

fn session(passed: &Passed, fields: Option<&[u8]>) -> Result<Opens, Reason>
    ensures { opening_of result ≡ line.session_opening (before_of passed.now) (option_map (λ s. s.now) fields.entry) }
{
    match fields {
        Some(_) => Err(Reason::FieldCount),
        None if passed.has_order => Err(Reason::OutOfOrder),
        None if passed.sessions < MOST_SESSIONS => Ok(Opens::Session),
        None => Err(Reason::TooMany),
    }
}

fn order(passed: &Passed, fields: Option<&[u8]>) -> Result<Opens, Reason>
    ensures { opening_of result ≡ line.order_opening (before_of passed.now) (option_map (λ s. s.now) fields.entry) }
{
    match fields {
        Some(_) => Err(Reason::FieldCount),
        None if !passed.has_order => Ok(Opens::Order),
        None => Err(Reason::OutOfOrder),
    }
}

fn vcpu(passed: &Passed, fields: Option<&[u8]>) -> Result<Opens, Reason>
    ensures { opening_of result ≡ line.vcpu_opening (before_of passed.now) (option_map (λ s. s.now) fields.entry) }
{
    let Some(fields) = fields else {
        return Err(Reason::FieldCount);
    };
    let (number, fuel) = at_space(fields);
    vcpu_fields(passed, number, fuel)
}

fn vcpu_fields(passed: &Passed, number: &[u8], fuel: Option<&[u8]>) -> Result<Opens, Reason>
    ensures { opening_of result ≡ line.vcpu_fields (before_of passed.now) number.now (option_map (λ s. s.now) fuel.entry) }
{
    let Some(fuel) = fuel else {
        return Err(Reason::FieldCount);
    };
    if has_space(fuel) {
        return Err(Reason::FieldCount);
    }
    vcpu_numbers(
        passed,
        ranged(0, LAST_VCPU, number),
        ranged(0, MOST_FUEL, fuel),
    )
}

fn vcpu_numbers(
    passed: &Passed,
    vcpu: Result<u64, Reason>,
    fuel: Result<u64, Reason>,
) -> Result<Opens, Reason>
    requires { IfOk vcpu (λ number. number ≤ 15) }
    ensures { opening_of result ≡ line.vcpu_numbers (before_of passed.now) vcpu fuel }
{
    match (vcpu, fuel) {
        (Err(reason), _) => Err(reason),
        (_, Err(reason)) => Err(reason),
        (Ok(vcpu), Ok(fuel)) if is_early(passed) && passed.next_vcpu <= vcpu => Ok(Opens::Vcpu {
            vcpu: vcpu as u8,
            fuel,
        }),
        _ => Err(Reason::OutOfOrder),
    }
}

// Whether only disks and vCPUs stand before a line.
fn is_early(passed: &Passed) -> bool
    ensures { result ≡ line.is_early (before_of passed.now) }
{
    passed.sessions == 0 && !passed.has_order
}

// Whether nothing stands before a line but disks.
fn is_first(passed: &Passed) -> bool
    ensures { result ≡ line.is_first (before_of passed.now) }
{
    is_early(passed) && passed.next_vcpu == 0
}

fn disk(passed: &Passed, fields: Option<&[u8]>) -> Reason
    ensures { result ≡ line.disk_reason (before_of passed.now) (option_map (λ s. s.now) fields.entry) }
{
    if is_first(passed) {
        return Reason::NotBuilt;
    }
    let Some(fields) = fields else {
        return Reason::FieldCount;
    };
    let (name, sectors) = at_space(fields);
    late_disk(name, sectors)
}

fn late_disk(name: &[u8], sectors: Option<&[u8]>) -> Reason
    ensures { result ≡ line.late_disk name.now (option_map (λ s. s.now) sectors.entry) }
{
    let Some(sectors) = sectors else {
        return Reason::FieldCount;
    };
    if has_space(sectors) {
        Reason::FieldCount
    } else if !is_name(name) {
        Reason::BadName
    } else {
        match ranged(1, MOST_SECTORS, sectors) {
            Err(reason) => reason,
            Ok(_) => Reason::OutOfOrder,
        }
    }
}
