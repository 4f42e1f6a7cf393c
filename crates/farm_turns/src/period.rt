//! One of every n.

ghost use Rattle.std.specs.Prelude.{◌≡◌, ◌<◌, max};
ghost use Rattle.farm_turns.specs.Periods.{is_selected, count_after};

/// Counts, and selects one of every `period`; none if this is 0.
#[derive(Debug, Drop)]
pub struct ParcelPeriodCounter {
    period: u32,
    passed: u32,
    ghost below: { passed < max 1 period },
}

impl ParcelPeriodCounter {
    /// Selects one of every `period`, and has counted none yet.
    pub fn new(period: u32) -> ParcelPeriodCounter
        ensures period { result.period ≡ period }
        ensures passed { result.passed ≡ 0 }
    {
        ParcelPeriodCounter { period, passed: 0 }
    }

    /// Counts one more, and returns whether it is selected, as the last of `period`.
    pub fn count_parcel_and_check_period_end(&mut self) -> bool
        ensures told { result ≡ is_selected self.old.period self.old.passed }
        ensures passed { self.new.passed ≡ count_after self.old.period self.old.passed }
        ensures same { self.new.period ≡ self.old.period }
    {
        if self.period == 0 {
            return false;
        }
        if self.passed + 1 < self.period {
            self.passed += 1;
            return false;
        }
        self.passed = 0;
        true
    }
}
