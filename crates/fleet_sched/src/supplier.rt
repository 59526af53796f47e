//! Suppliers of schedulers.

ghost use Rattle.std.specs.Prelude.{◌≡◌};

use crate::{CompactionScheduler, CompactorOptions, SizeTieredCompactionScheduler};

/// Makes the scheduler of a coordinator.
pub trait CompactionSchedulerSupplier: Send + Sync {
    type Scheduler: CompactionScheduler;

    ghost use Rattle.fleet_sched.specs.declared.options.CompactorOptions.{CompactorOptions};

    /// The scheduler that it makes for a coordinator with these options.
    ghost supplied: { Self → CompactorOptions → Self.Scheduler };

    fn compaction_scheduler(&self, options: &CompactorOptions) -> Self::Scheduler
        ensures { result ≡ supplied self.now options.now };
}

/// Makes size-tiered schedulers.
#[derive(Clone, Copy, Debug, Default)]
pub struct SizeTieredCompactionSchedulerSupplier;

impl SizeTieredCompactionSchedulerSupplier {
    pub const fn new() -> SizeTieredCompactionSchedulerSupplier {
        SizeTieredCompactionSchedulerSupplier
    }
}

impl CompactionSchedulerSupplier for SizeTieredCompactionSchedulerSupplier {
    type Scheduler = SizeTieredCompactionScheduler;

    ghost supplied = { λ _ o. record {
      options = o.scheduler_options;
      max_concurrent_compactions = o.max_concurrent_compactions;
    } };

    fn compaction_scheduler(&self, options: &CompactorOptions) -> SizeTieredCompactionScheduler {
        SizeTieredCompactionScheduler::new(
            options.scheduler_options,
            options.max_concurrent_compactions,
        )
    }
}
