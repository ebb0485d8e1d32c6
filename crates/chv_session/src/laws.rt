// Laws of whole sessions, proved of what the contract of `Session::next` says. Each is the contract of a function that
// does nothing.
ghost use Rattle.chv_session.specs.Laws.{AnswersWithoutBye, EndsAsSession, IsSessionWhereLeft, IsSessionWhereLost, PutsItsReplies, PutsItsRepliesWhereLost};

/// Turns that follow one another from a new session to its end make a session of the definitions, whatever the pieces;
/// and so do turns that are left off behind an answer, and turns that want of memory ends.
pub fn steps_make_a_session()
    ensures ended { EndsAsSession }
    ensures left { IsSessionWhereLeft }
    ensures lost { IsSessionWhereLost }
{}

/// What was put into the connection is the replies of the session, and at a failure at most a part of one more.
pub fn puts_its_replies()
    ensures ended { PutsItsReplies }
    ensures lost { PutsItsRepliesWhereLost }
{}

/// In a turn that answers a request or a refusal the session makes no Bye.
pub fn answers_without_bye()
    ensures { AnswersWithoutBye }
{}
