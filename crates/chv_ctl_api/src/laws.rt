// Laws of the calls of the API. Each is the contract of a function that does nothing.
ghost use Rattle.chv_ctl_api.specs.Laws.{AnswersFit, RefusedLeaveTheState, StatesStayWellFormed};

/// A call that is refused by rule leaves the state as it was.
pub fn refused_calls_change_nothing()
    ensures { RefusedLeaveTheState }
{}

/// A call of a session is answered by a reply of a kind that it can have.
pub fn answers_fit()
    ensures { AnswersFit }
{}

/// What a call leaves is well formed.
pub fn states_stay_well_formed()
    ensures { StatesStayWellFormed }
{}
