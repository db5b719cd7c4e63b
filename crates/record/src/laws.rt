//! Laws of logs. Each is the contract of a function that does nothing.
ghost use Rattle.record.specs.FactLaws.{AcceptedFollows, LearnAgrees, LearntAgrees};
ghost use Rattle.record.specs.VerdictLaws.{EachNoIsRight, SoundIsYes, YesIsSound};

/// States what the verdict `Yes` means. Every transaction that no log retired is whole, and is in the history if it was
/// acknowledged. If no log was renewed, every value is that of the serial run. Timestamps follow the order of acknowledging
/// and beginning.
pub fn a_yes_is_sound()
    ensures { YesIsSound }
{}

/// States that each other verdict is right. The id is not whole; or the acknowledgement is not in the history. Or the
/// value is not that of the serial run, or was read for an id that is not in the history. Or the acknowledgement came
/// before the begin, at a timestamp that is not below.
pub fn each_no_is_right()
    ensures { EachNoIsRight }
{}

/// States that the verdict is `Yes` if nothing is wrong and each read of a line is of a committed id.
pub fn sound_is_yes()
    ensures { SoundIsYes }
{}

/// States that one more record of a log changes its facts as one learns it.
pub fn learn_agrees()
    ensures { LearnAgrees }
{}

/// States that the facts of a log are those that are learnt from its records, one after another.
pub fn learnt_agrees()
    ensures { LearntAgrees }
{}

/// States that in a list of records that is accepted each record follows those before it.
pub fn accepted_follows()
    ensures { AcceptedFollows }
{}
