// Laws of lending. Each is the contract of a function that does nothing.
ghost use Rattle.chv_guest.specs.Laws.{NoneFindsItFrozen, SealedIsSeen, UnpinsAreDone, WhoActsIsLent};

/// No access of a context that is lent is refused because its bank is frozen.
pub fn none_finds_it_frozen()
    ensures { NoneFindsItFrozen }
{}

/// An access that is refused at a sealed block tells the place up to which its bank's history is seen then, and the lowest block of
/// the call that is sealed there.
pub fn sealed_is_seen()
    ensures { SealedIsSeen }
{}

/// An Unpin is always done.
pub fn unpins_are_done()
    ensures { UnpinsAreDone }
{}

/// A context that may make accesses while the owner makes a call is lent.
pub fn who_acts_is_lent()
    ensures { WhoActsIsLent }
{}
