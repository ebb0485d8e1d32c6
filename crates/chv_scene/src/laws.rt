// The laws of the definitions, as contracts of functions that do nothing.
ghost use Rattle.chv_defs_scene.specs.ScenarioText.{ReadsScenarios};
ghost use Rattle.chv_scene.specs.Reasons.{RefusesForFirstReason};
ghost use Rattle.chv_scene.specs.Refusals.{RefusesLowestLine};

/// What is read are exactly the scenarios, each as the sessions that it spells: sections one behind another, byte for byte;
/// at most 16; and each of their requests one that can stand there. So each scenario has one spelling, and no text that has
/// this form is refused.
pub fn reads_exactly_the_scenarios()
    ensures { ReadsScenarios }
{}

/// A refusal names the lowest line with which no scenario goes on. Some scenario begins with the lines before it, where a script
/// that is open there has room for its labels. None has the lines up to it, unless that line jumps to a label that in the scenario
/// stands further on in the section, and in the refused text does not. Where a section has no end, the line behind the last one is
/// named, and no scenario ends there.
pub fn refusal_names_the_lowest_line()
    ensures { RefusesLowestLine }
{}

/// A refusal names the first reason, in their order, that holds of its line where it stands: the line has no line feed; or its word
/// is none, or it has more fields or fewer, or a field is not of its kind (the leftmost such field tells); or its label stands on a
/// line before, or it jumps to no label; or it is out of order; or it is one too many. The lines before it alone tell where it
/// stands.
pub fn refusal_names_the_first_reason()
    ensures { RefusesForFirstReason }
{}
