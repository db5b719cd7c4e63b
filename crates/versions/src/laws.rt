//! What holds of versions in order and in the log's order.
ghost use Rattle.std.specs.Prelude.{[]};
ghost use Rattle.versions.specs.Places.{SameValues, PlaceDoesNotMatter, PlacesDoNotMatter};
ghost use Rattle.versions.specs.Places.{PlaceDoesNotMatterFrom, AllFromTheBeginning, AllFromAnyTime};
ghost use Rattle.versions.specs.Due.{StayingIsNotMissed};
ghost use Rattle.versions.specs.Pruned.{PrunedIsNotMissed, PrunedAgainIsNotMissed};

/// States that the order of the versions does not matter for the values: they are those of the log, at first and after each install.
pub fn place_does_not_matter()
    ensures none { SameValues [] [] }
    ensures one { PlaceDoesNotMatter }
    ensures all { PlacesDoNotMatter }
{}

/// States that what a horizon lets go is not missed from the horizon up: not in the values, and not in what is taken as new. This also holds
/// after more installs, and after a later horizon, at which versions go or stay. From the beginning of time up these are all values.
pub fn forgotten_is_not_missed()
    ensures once { PrunedIsNotMissed }
    ensures again { PrunedAgainIsNotMissed }
    ensures stays { StayingIsNotMissed }
    ensures one { PlaceDoesNotMatterFrom }
    ensures whole { AllFromTheBeginning }
    ensures part { AllFromAnyTime }
{}
