//! Laws of images.
ghost use Rattle.images.specs.Answers.{ListsAreViews, LooksAreTheRuns, OutboxesAreTheRuns, ShownIsSerial, ToldIsThere, ViewedIsSerial};
ghost use Rattle.images.specs.Images.{AllCrashAtOnce, AllGoOn, CoresKnowTheRun, CrashesAreTold, FailuresAreTold, ImagesHaveLogs};
ghost use Rattle.images.specs.Unturned.{AreasAreLogs};

use disk::Disk;

/// Leads from bytes to history, for every lawful run and at every moment of it. It is the contract of a function that does nothing.
///
/// Cores on disks of this type stand beside the run. The contracts of `Core::open`, `Core::on` and `Core::turn_over` say what each call
/// does. If the device failed in a call, what is then read also shows which call of the device it was.
///
/// If the disks keep the disk model, a crash may strike them between two calls or at any moment within one. Each image that it may
/// leave is read as an area of its file. The area keeps what all records of its shard say that were logged since the file was
/// formatted. `law::moments` speaks of such areas, and what it says holds of them.
pub fn images_have_logs<D: Disk>()
    ensures logs { ImagesHaveLogs D.keeps_model D.obeys D.file D.clock D.since D.failures D.plan }
    // A running core knows and keeps what the run says of its shard.
    ensures cores { CoresKnowTheRun D.keeps_model D.obeys D.file D.clock D.since D.failures D.plan }
    // Whatever image a crash leaves, some event of the run tells it. Cores that go on from there stand beside the run.
    ensures told { CrashesAreTold D.keeps_model D.obeys D.file D.clock D.since D.failures D.plan }
    // All shards may crash at once, some or each within a call. Crashes within these calls tell it, and the law holds after them.
    ensures at_once { AllCrashAtOnce D.keeps_model D.obeys D.file D.clock D.since D.failures D.plan }
    // And all cores that go on from there stand beside the run with such crashes.
    ensures go_on { AllGoOn D.keeps_model D.obeys D.file D.clock D.since D.failures D.plan }
    // The same holds if a device fails in a call that writes, unless something was unsure on a disk that was opened.
    ensures failed { FailuresAreTold D.keeps_model D.obeys D.file D.clock D.since D.failures D.plan }
{}

/// Leads from bytes to answers, for every lawful run and at every moment of it. Cores on disks that keep the disk model stand beside the run,
/// as for `images_have_logs`.
pub fn answers_are_the_runs<D: Disk>()
    // A core puts out the messages that the run puts out at that event, in order, or is refused for the run's reason.
    ensures outboxes { OutboxesAreTheRuns D.keeps_model D.obeys D.file D.clock D.since D.failures D.plan }
    // A look at a core, which runs or is stopped, is the run's look at its shard.
    ensures looks { LooksAreTheRuns D.keeps_model D.obeys D.file D.clock D.since D.failures D.plan }
    // What a core tells committed is whole and committed at that timestamp, in the logs of each later image of all disks.
    ensures told { ToldIsThere D.keeps_model D.obeys D.file D.clock D.since D.failures D.plan }
    // What a look at a core shows is what the serial run has, in the logs of each later image of all disks.
    ensures shown { ShownIsSerial D.keeps_model D.obeys D.file D.clock D.since D.failures D.plan }
    // A board's list that shows a core, as it was opened or advanced, is a view of the run.
    ensures views { ListsAreViews D.keeps_model D.obeys D.file D.clock D.since D.failures D.plan }
    // What such a list shows a viewer is what the serial run has, in the logs of each later image of all disks.
    ensures viewed { ViewedIsSerial D.keeps_model D.obeys D.file D.clock D.since D.failures D.plan }
{}

/// Says that without a turnover in the run, whatever a crash leaves is the first area of its file, with all records of its shard.
pub fn areas_are_logs()
    ensures { AreasAreLogs }
{}
