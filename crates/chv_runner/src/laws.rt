// The laws above slices, as contracts of functions that do nothing.
ghost use Rattle.chv_defs_guest.specs.SliceLaws.{AnswersTell, FewCalls, HandTells, HandsASlice, OrderTells, SealedTells, WorldGivesOne};

/// The answers of a vCPU's slice give its calls, its note and its end.
pub fn answers_tell()
    ensures { AnswersTell }
{}

/// Where the world determines each answer, a vCPU that was taken has exactly one slice.
pub fn world_gives_one()
    ensures { WorldGivesOne }
{}

/// A slice of so many instructions makes at most as many calls.
pub fn few_calls()
    ensures { FewCalls }
{}

/// The end that a Hand names tells which calls of the slice made an entry, and what the last one came to where it made none.
pub fn hand_tells()
    ensures { HandTells }
{}

/// What a runner hands back that made a whole slice is a slice.
pub fn hands_a_slice()
    ensures { HandsASlice }
{}

/// What a caller entered in each book, and the books in order, tell its exchanges.
pub fn order_tells()
    ensures { OrderTells }
{}

/// What an access that was refused at a sealed block tells of its bank at that turn.
pub fn sealed_tells()
    ensures { SealedTells }
{}
