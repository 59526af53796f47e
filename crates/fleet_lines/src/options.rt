//! The options of a fleet.

use fleet_sched::{CompactorOptions, SizeTieredCompactionSchedulerOptions};
use fleet_worker::CompactionWorkerOptions;

/// The options of a fleet: those of its coordinators, and those of its workers. A claim and a flush
/// take the retention of the workers.
#[derive(Clone, Copy, Debug, PartialEq, Eq)]
pub struct FleetOptions {
    pub compactor: CompactorOptions,
    pub worker: CompactionWorkerOptions,
}

/// The options of a fleet until its script sets others.
impl Default for FleetOptions {
    ghost use Rattle.std.specs.Prelude.{◌≡◌};
    ghost use Rattle.script_model.specs.Defaults.{default_options};
    ghost use Rattle.fleet_lines.specs.Fleets.{options_of};

    ghost is_default = { λ o. options_of o ≡ default_options };

    fn default() -> FleetOptions {
        FleetOptions {
            compactor: CompactorOptions {
                max_concurrent_compactions: 4,
                worker_heartbeat_timeout_ms: 60_000,
                enable_trivial_move: false,
                scheduler_options: SizeTieredCompactionSchedulerOptions::default(),
            },
            worker: CompactionWorkerOptions {
                max_concurrent_compactions: 4,
                max_subcompactions: 4,
                max_sst_size: 268_435_456,
                retention_ms: 0,
            },
        }
    }
}
