// The laws of the definitions, as contracts of functions that do nothing.
ghost use Rattle.chv_defs_scene.specs.ScriptReading.{ReadsScripts};
ghost use Rattle.chv_script.specs.Laws.{IsReadBack, OneSpelling, NamesFirstFault, NoScriptBegins};
ghost use Rattle.chv_script.specs.Reasons.{NamesFirstReason};

use chv_defs_scene::Script;

/// What is read are exactly the scripts, each as its instructions: each line spells one, in the one spelling that it has, no
/// label stands twice, and each jump goes to a label. No lines of this form are refused.
pub fn reads_exactly_the_scripts()
    ensures { ReadsScripts }
{}

/// A script that was read is printed as the lines that it was read from, and what is printed is read as it.
pub fn printed_is_read_back(script: &Script)
    ensures { IsReadBack script.now }
{}

/// Each script has one spelling.
pub fn script_has_one_spelling()
    ensures { OneSpelling }
{}

/// A refusal names the first line that fails. No script with the labels of the refused lines begins with the lines up to that
/// one. (One with a further label may: a jump to no label is refused by what does not stand behind it.)
pub fn refusal_names_the_first_fault()
    ensures first { NamesFirstFault }
    ensures none { NoScriptBegins }
{}

/// A refusal names the first reason that holds of its line: its word is none, or it has more fields or fewer, or a field is not of
/// its kind (the leftmost such field tells), or else its label stands on a line before, or it jumps to no label.
pub fn refusal_names_the_first_reason()
    ensures { NamesFirstReason }
{}
