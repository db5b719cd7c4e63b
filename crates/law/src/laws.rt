//! The laws of whole runs.
ghost use Rattle.law.specs.Acknowledged.{CommitsAreLines};
ghost use Rattle.law.specs.InOrder.{BeforeIsInFront, IdsStandOnce};
ghost use Rattle.law.specs.Passes.{AllAreWhole, CommitsAreAboveArrival, HeldReadsAreLatest};
ghost use Rattle.law.specs.Passes.{OutcomesHavePassed, PutOutIsLogged, ServedIsBelow, ShardsAreOfTheirLogs};
ghost use Rattle.law.specs.TimeLaws.{InstalledInThePast, LooksShowAcknowledged};
ghost use Rattle.law.specs.Written.{WrittenBySessions};
ghost use Rattle.world.specs.Areas.{AreasKeep};
ghost use Rattle.world.specs.Headline.{ExternalConsistency};
ghost use Rattle.world.specs.Steady.{AlwaysHasAreas, AlwaysSteady};

/// Says the law of the store, for every list of events and at every moment. It is the contract of a function that does nothing.
///
/// Whatever crash strikes a lawful run, within a write or between two events:
/// - an opening accepts every log, and each acknowledged commit is in the logs, whole and at its timestamp;
/// - each transaction stands at one timestamp on all its shards, or on none;
/// - every answered look, and every answered read of a committed transaction, is that of the serial run by timestamp;
/// - what began after an acknowledgement has the larger timestamp.
///
/// This is said of all records that were logged since the disks were formatted. If logs are turned over, the area that a crash leaves
/// keeps what they say.
pub fn moments()
    ensures consistent { ExternalConsistency }
    // An opening accepts the area of a disk, and the area keeps what all records say, even if the crash struck within a turnover.
    ensures areas { AreasKeep }
    // Each transaction of the logs is that of a session that closed, and writes exactly what the session wrote.
    ensures written { WrittenBySessions }
    // No version is installed before its timestamp has passed.
    ensures past { InstalledInThePast }
    // A look at the present, at a shard or through a view, shows all that was acknowledged before it.
    ensures looks { LooksShowAcknowledged }
    // Each message that tells a session of its commit has a line of acknowledgement, even if it repeats what was told before.
    ensures acknowledged { CommitsAreLines }
{}

/// Says that no two transactions of the logs have the same id.
pub fn ids_stand_once()
    ensures { IdsStandOnce }
{}

/// Says that the map before a transaction is what the transactions before it in the serial order leave.
pub fn before_is_in_front()
    ensures { BeforeIsInFront }
{}

/// Says that the records of a shard's log follow one another, whatever a crash leaves of them. What a running shard keeps in memory is
/// what its log says: its rows with their locks, its versions, and the status of each id.
pub fn shards_are_of_their_logs()
    ensures records { AlwaysSteady }
    ensures rows { ShardsAreOfTheirLogs }
{}

/// Says that an opening accepts the area of each disk, and that the area is alike to all records that were logged. More records leave
/// them alike, and a step over one is a step over the other. What they say may be renewed.
pub fn areas_keep()
    ensures left { AreasKeep }
    ensures read { AlwaysHasAreas }
{}

/// Says that each yes vote, each outcome and each end that was ever put out has its record in a log. It is the promise, the abort, or the
/// decision with its outcome, whose timestamp has passed.
pub fn what_was_put_out_is_logged()
    ensures { PutOutIsLogged }
{}

/// Says that each transaction is whole over all logs, whatever a crash leaves.
pub fn all_are_whole()
    ensures { AllAreWhole }
{}

/// Says that a value which a session took stays its key's latest while the reader holds the key, until the reader is logged above it.
/// From then on no other version of the key is made before the reader's outcome, and none below its timestamp.
pub fn held_reads_are_latest()
    ensures { HeldReadsAreLatest }
{}

/// Says that what a shard served, now or through a view, is at most the floor of its log, whatever a crash leaves. All that it promises,
/// decides or installs later is above it.
pub fn served_is_below()
    ensures { ServedIsBelow }
{}

/// Says that an outcome that commits is logged, and its versions are installed, only once its timestamp has passed. A decision's timestamp
/// is above the true time at which its request came to its shard. The shard remembered the request until the decision was in its log.
pub fn outcomes_have_passed()
    ensures logged { OutcomesHavePassed }
    ensures installed { InstalledInThePast }
    ensures decided { CommitsAreAboveArrival }
{}
