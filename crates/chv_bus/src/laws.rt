// The law of the piece that an instruction is, as the contract of a function that does nothing.
ghost use Rattle.chv_defs_guest.specs.Pieces.{PiecesCanBeMade};

/// What a vCPU's next instruction asks for can be made: an access to memory names bytes in one block of a bank that there is,
/// a register access has a width that its port or its window takes and a value of that width, and where nothing is made the
/// answer fits.
pub fn pieces_can_be_made()
    ensures { PiecesCanBeMade }
{}
