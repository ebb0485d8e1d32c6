// The banks of a trace.
ghost use Rattle.std.specs.Prelude.{◌≡◌, ◌++◌, [], ◌∷◌, filter, IfOk, OnOk};
ghost use Rattle.chv_defs.specs.Schedule.{has_entries};
ghost use Rattle.chv_play.specs.Banks.{as_trace, traced};
ghost use Rattle.chv_play.specs.Played.{AreLegalBanks};

use chv_bank::Bank;
use chv_defs::{BankTrace, Row};
use chv_guest::LentBanks;
use std::alloc::{AllocError, Global};

/// The banks that have entries, with their histories, each of which is legal.
pub(crate) fn bank_traces(alloc: Global, zones: LentBanks) -> Result<Row<BankTrace>, AllocError>
    ensures value { IfOk result (λ banks. banks ≡ filter has_entries (traced zones)) }
    ensures legal { IfOk result AreLegalBanks }
{
    let mut traces = Row::empty(alloc);
    for bank in zones.into_banks() {
        push_trace(&mut traces, bank)?;
    }
    Ok(traces)
}

// Appends the history of a bank, where it has entries.
fn push_trace(traces: &mut Row<BankTrace>, bank: Bank) -> Result<(), AllocError>
    ensures value { OnOk result (traces.new ≡ traces.old ++ filter has_entries (as_trace bank ∷ [])) }
    ensures legal { OnOk result (AreLegalBanks traces.old → AreLegalBanks traces.new) }
{
    let (zone, number) = bank.number();
    let entries = bank.into_history();
    if entries.is_empty() {
        return Ok(());
    }
    traces.push(BankTrace {
        zone,
        bank: number,
        entries,
    })
}
