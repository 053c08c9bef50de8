//! Laws of the halfway journal, which is written before a command's changes, for whatever a stopped run leaves. Each law
//! is the contract of an empty function, which nothing calls.

ghost use Rattle.par2_spec.specs.Laws.{HalfwayBytesOpenAsBefore, HalfwayBytesStillOpen};

/// The halfway journal of a command opens each folder that the command passes through as the session from before it, if
/// the fingerprints of these folders differ. A run that stops after any change loses nothing.
pub fn halfway_journal_opens_as_before()
    ensures { HalfwayBytesOpenAsBefore }
{}

/// If a halfway journal opens a folder as a session, it opens each folder that the way back passes through as that
/// session, so a run that stops while it takes a command back loses nothing either.
pub fn halfway_journal_still_opens()
    ensures { HalfwayBytesStillOpen }
{}
