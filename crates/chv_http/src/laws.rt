// Laws of the requests of a stream, proved of the definitions.
ghost use Rattle.chv_http.specs.Laws.{HasOneOutcome, StaysWithMore, JoinsPieces, CutsOneWay, CutGivesOutcome, CutGivesAll};

/// What a stream's rest begins with is decided by its bytes alone, and what is there whole is not changed by the bytes
/// that follow. So after a refusal every later answer is that refusal.
pub fn decided_by_bytes()
    ensures one { HasOneOutcome }
    ensures stays { StaysWithMore }
{}

/// The requests of a stream do not depend on the pieces in which it came: those of the pieces, one after another, are
/// those of the whole, and there is one way to cut it.
pub fn any_pieces()
    ensures joined { JoinsPieces }
    ensures one { CutsOneWay }
{}

/// Every stream has an outcome, and a function of its bytes computes it.
pub fn cut_computes()
    ensures given { CutGivesOutcome }
    ensures all { CutGivesAll }
{}
