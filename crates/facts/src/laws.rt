//! What the facts alone tell of a log. Each law is the contract of a function that does nothing.
ghost use Rattle.facts.specs.Laws.{FollowsAsKnown, LearntAsFollowed, SaysOfRecords, StageAgrees};

/// States that the facts, with how far one is in the log, tell whether one more record may come next.
pub fn follows_as_known()
    ensures { FollowsAsKnown }
{}

/// States that how far one is in the log follows record by record.
pub fn stage_agrees()
    ensures { StageAgrees }
{}

/// States that a list of records is learnt to its end if and only if each record follows those before it. What is
/// known then are the list's facts.
pub fn learnt_as_followed()
    ensures { LearntAsFollowed }
{}

/// States that what the facts still say of a transaction is what its records say.
pub fn says_of_records()
    ensures { SaysOfRecords }
{}
