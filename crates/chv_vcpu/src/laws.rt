// The laws of the definition of one instruction, as contracts of functions that do nothing.
ghost use Rattle.chv_defs_guest.specs.Runs.{AskedCanSettle, CutIsAskedAgain, EachCostsOne, OthersStay, StaysInScript};

/// An instruction that asks for something leaves the vCPU as it was until it is settled. So where no answer comes it is asked
/// again, the same, at no cost.
pub fn cut_is_asked_again()
    ensures { CutIsAskedAgain }
{}

/// Each instruction costs one fuel, so there are never more of them than the fuel at their beginning.
pub fn each_costs_one()
    ensures { EachCostsOne }
{}

/// What is asked can be settled in the state in which it was asked.
pub fn asked_can_settle()
    ensures { AskedCanSettle }
{}

/// An instruction leaves all registers but the one that it names first, and the flag of an access to memory.
pub fn other_registers_stay()
    ensures { OthersStay }
{}

/// An instruction leaves the vCPU at a line of its script, or behind the last one.
pub fn stays_in_script()
    ensures { StaysInScript }
{}
