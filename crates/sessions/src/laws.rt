//! Laws of sessions that share a buffer, each the contract of a function that does nothing.

ghost use Rattle.sessions.specs.Laws.{GatheredIsLawful, RunIsPlayed};

/// A transcript that gathers what the sessions of a script did with a buffer that they share is lawful, whatever the order
/// in which their calls came.
pub fn gathered_is_lawful()
    ensures { GatheredIsLawful }
{}

/// What a session's run did from its desk stands so in every history that goes on from what the desk has seen: the desk's
/// calls are the session's, and each take has a front.
pub fn run_is_played()
    ensures { RunIsPlayed }
{}
