//! Figures on how fast a drive goes.
ghost use Rattle.std.specs.Prelude.{◌≡◌, ◌≤◌, [], ◌↔◌, IsNone, IfSome};
ghost use Rattle.std.specs.List.Sorted.{IsNonDecreasing};
ghost use Rattle.progress.specs.Figures.{IsPercentile, rate_of};

/// Returns how many a second it is, rounded down, if there were `count` in so many microseconds. It is 0 for 0 microseconds.
pub fn per_second(count: u64, micros: u64) -> u128
    ensures { result ≡ rate_of count micros }
{
    if micros == 0 {
        0
    } else {
        u128::from(count) * 1_000_000 / u128::from(micros)
    }
}

/// Returns the least of these numbers that `percent` of 100 of them do not exceed, or `None` if there are none.
pub fn percentile(sorted: &[u64], percent: u64) -> Option<u64>
    requires sorted { IsNonDecreasing sorted.now }
    requires percent { (1 ≤ percent) × (percent ≤ 100) }
    ensures none { IsNone result ↔ (sorted.now ≡ []) }
    ensures value { IfSome result (IsPercentile percent sorted.now) }
{
    if sorted.is_empty() {
        return None;
    }
    let place = (sorted.len() as u128 * u128::from(percent) - 1) / 100;
    Some(sorted[place as usize])
}
