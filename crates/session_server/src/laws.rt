//! Laws of sessions, each the contract of a function that does nothing.
ghost use Rattle.session_server.specs.Replies.{FewAreOpen, SessionsAreApart};

/// Each session's replies are those that it would get alone, whatever others do between, as long as it was not refused
/// because too many were open.
pub fn sessions_are_apart()
    ensures { SessionsAreApart }
{}

/// No more than so many sessions are ever open, so that one is refused as `full` exactly where so many are.
pub fn few_are_open()
    ensures { FewAreOpen }
{}
