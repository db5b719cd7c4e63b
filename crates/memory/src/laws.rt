//! The laws of the holds of the safe time.
ghost use Rattle.memory.specs.ServedLaws.{SafeByHolds, HoldIsPut, NoneIsPut, HoldIsTaken, NoneIsTaken, HoldsAreFew};

/// Says that the holds of the safe time follow the rows: there is one for each row that is prepared or decided. So the safe time
/// is that of the rows, and there are no more holds than rows.
pub fn holds_follow_rows()
    ensures safe { SafeByHolds }
    ensures hold_put { HoldIsPut }
    ensures none_put { NoneIsPut }
    ensures hold_taken { HoldIsTaken }
    ensures none_taken { NoneIsTaken }
    ensures few { HoldsAreFew }
{}
