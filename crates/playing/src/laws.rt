//! The law of reports.
ghost use Rattle.playing.specs.Reported.{ReportsAreConsistent};

use record::sound_is_yes;

/// States the law of the store for the report of each run that is played. It is the contract of a function that does nothing:
///
/// - openings take all records that were logged since the disks were formatted;
/// - these records hold each commit that its lines acknowledge, and each transaction at one timestamp on all its shards, or on none;
/// - its looks, and its reads of committed transactions, are those of the serial run by timestamp;
/// - what began after an acknowledgement has the larger timestamp.
///
/// Each image that a crash may leave of the run's own disks holds their logs. These keep what the records say, and openings take them. If no
/// log has a base, they are these records. The verdict on them is yes. The lines are those that count by them: an answered read counts as it
/// does by all records, unless its transaction is retired.
pub fn reports()
    ensures { ReportsAreConsistent }
{
    sound_is_yes();
}
