//! Laws of renewed logs. Each is the contract of a function that does nothing, and names what it asks of the facts.
ghost use Rattle.ledger.specs.Laws.{AlikeKeeps, AlikeStands, AlikeStays, AlikeSteps, AlikeTakes, AlikeTurned, HeldInOrder};
ghost use Rattle.ledger.specs.Laws.{LastingFollows, LastingStays, LogIsOfShard, LogLasts, OfShardStays, TakenLasts};
ghost use Rattle.ledger.specs.Laws.{TurnedAgain, TurnedBelongs, TurnedFits, TurnedKeeps, TurnedLasts, TurnedLogKeeps, TurnedMayCome, TurnedSays};

/// Says that a renewed log, learnt record by record, says what its log said, with the versions that the horizon leaves.
pub fn turned_says()
    ensures { TurnedSays }
{}

/// Says that a renewed log is alike to the log that it renews.
pub fn turned_keeps()
    ensures { TurnedKeeps }
{}

/// Says that each record of a renewed log may come after those before it.
pub fn turned_may_come()
    ensures { TurnedMayCome }
{}

/// Says that a renewed log, read as a set of records, keeps what its log said.
pub fn turned_log_keeps()
    ensures { TurnedLogKeeps }
{}

/// Says that each record of a sound shard's renewed log fits beside what the records before it leave.
pub fn turned_fits()
    ensures { TurnedFits }
{}

/// Says that the versions of a renewed log are those of the places in order, without what the horizon drops.
pub fn held_in_order()
    ensures { HeldInOrder }
{}

/// Says that a renewed log names keys of the shard alone if its log did.
pub fn turned_belongs()
    ensures { TurnedBelongs }
{}

/// Says that a renewed log may be renewed again.
pub fn turned_lasts()
    ensures { TurnedLasts }
{}

/// Says that renewing a renewed log gives the same records.
pub fn turned_again()
    ensures { TurnedAgain }
{}

/// Says that logs that are alike say the same of every id, and have the same values from the horizon up.
pub fn alike_keeps()
    ensures { AlikeKeeps }
{}

/// Says that logs that are alike stay so with one more record.
pub fn alike_stays()
    ensures { AlikeStays }
{}

/// Says that logs that are alike accept the same records.
pub fn alike_takes()
    ensures { AlikeTakes }
{}

/// Says that an input comes to the same step over either of two logs that are alike.
pub fn alike_steps()
    ensures { AlikeSteps }
{}

/// Says that two logs that are alike resolve each transaction alike, beside any other logs.
pub fn alike_stands()
    ensures { AlikeStands }
{}

/// Says that logs that are alike are renewed into the same records.
pub fn alike_turned()
    ensures { AlikeTurned }
{}

/// Says when the facts of a log may be renewed: each record may come next and fits, and its writes ascend.
pub fn log_lasts()
    ensures { LogLasts }
{}

/// Says that the facts of a log fit its shard: it decides what it decided, and a shard below it decides what it promised.
pub fn log_is_of_shard()
    ensures { LogIsOfShard }
{}

/// Says that the facts of a log which an opening accepts may be renewed.
pub fn taken_lasts()
    ensures { TakenLasts }
{}

/// Says that facts which may be renewed stay so after each record of a step that is accepted.
pub fn lasting_stays()
    ensures { LastingStays }
{}

/// Says that they stay so after a record that follows, if the versions may then be put on a board.
pub fn lasting_follows()
    ensures { LastingFollows }
{}

/// Says that the facts still fit their shard after a record of a step that is accepted.
pub fn of_shard_stays()
    ensures { OfShardStays }
{}
