// Laws of the definitions that the control value cites. Each is the contract of a function that does nothing.
ghost use Rattle.chv_defs_control.specs.LegalControl.{RefusalsChangeNothing};
ghost use Rattle.chv_control.specs.OpenBlocks.{OpenAreTheBootBlocks};

/// A call that is refused by rule changes nothing: without its refused calls a history leads to the same state.
pub fn refusals_change_nothing()
    ensures { RefusalsChangeNothing }
{}

/// In banks that are linked to a legal control history, and legal themselves, exactly the boot blocks of a booted machine's zones
/// are open at its end.
pub fn open_are_the_boot_blocks()
    ensures { OpenAreTheBootBlocks }
{}
