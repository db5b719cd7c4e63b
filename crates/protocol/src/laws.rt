//! Laws of the step. Each is the contract of a function that does nothing.
ghost use Rattle.protocol.specs.FitsBeside.{LoggedFitsBeside};
ghost use Rattle.protocol.specs.OwnKeys.{LoggedBelongs, StepKeepsOwn};
ghost use Rattle.protocol.specs.Refusals.{OwnRefusals};
ghost use Rattle.protocol.specs.Sound.{FreshIsSound, InstallsAbove, LoggedFollows, OpeningKeepsSound, StaysWithin, StepKeepsSound};

/// Says that a shard whose log has one opening alone is sound: its lock table, its facts and its rows agree.
pub fn fresh_is_sound()
    ensures { FreshIsSound }
{}

/// Says that each step of a sound shard leaves it sound.
pub fn step_keeps_sound()
    ensures { StepKeepsSound }
{}

/// Says that a sound shard logs only records that may come next in its log.
pub fn logged_follows()
    ensures { LoggedFollows }
{}

/// Says that a sound shard installs no version below another of its key.
pub fn installs_above()
    ensures { InstallsAbove }
{}

/// Says that no step lets the rows grow past the table's limit.
pub fn stays_within()
    ensures { StaysWithin }
{}

/// Says that a step refuses only with `TimeSpent`, `RowsFull`, `Future`, `NotYet`, `Early` or `Stranger`.
pub fn own_refusals()
    ensures { OwnRefusals }
{}

/// Says that opening the log of a sound shard gives a sound shard. What was read stays locked with what was written.
pub fn opening_keeps_sound()
    ensures { OpeningKeepsSound }
{}

/// Says that rows which hold only the shard's own keys do so after each step.
pub fn step_keeps_own()
    ensures { StepKeepsOwn }
{}

/// Says that a shard logs no record of another shard's keys.
pub fn logged_belongs()
    ensures { LoggedBelongs }
{}

/// Says that a sound shard logs a promise or a decision only if its row has room and its locks conflict with nobody's.
pub fn logged_fits_beside()
    ensures { LoggedFitsBeside }
{}
