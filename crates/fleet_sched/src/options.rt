//! Options of coordinators and of their schedulers.

ghost use Rattle.std.specs.Prelude.{◌≡◌, if◌then◌else◌, Some, None};
ghost use Rattle.sched_model.specs.Series.{are_tiered, TieredOptions};
ghost use Rattle.fleet_sched.specs.Options.{default_options, tiered_options};

use std::marker::Model;

/// The options of the size-tiered scheduler. Contracts see them as the model's options.
#[derive(Clone, Copy, Debug, PartialEq, Eq)]
pub struct SizeTieredCompactionSchedulerOptions {
    /// The least number of sources of a job. It is at least 1.
    pub min_compaction_sources: u64,
    /// The greatest number of sources of a job. It is at least the least number.
    pub max_compaction_sources: u64,
    /// The numerator of the factor that bounds how much larger a run may be than the least one
    /// before it.
    pub include_size_numerator: u64,
    /// The denominator of that factor. It is at least 1.
    pub include_size_denominator: u64,
}

impl Model for SizeTieredCompactionSchedulerOptions {
    ghost use Rattle.std.specs.Prelude.{IsTrue};
    ghost use Rattle.sched_model.specs.Series.{are_tiered, TieredOptions};
    ghost use Rattle.fleet_sched.specs.Options.{tiered_options};

    ghost Value = { TieredOptions };

    ghost view = { λ o. tiered_options o.min_compaction_sources o.max_compaction_sources
        o.include_size_numerator o.include_size_denominator };

    ghost invariant = { λ o. IsTrue (are_tiered (tiered_options o.min_compaction_sources
        o.max_compaction_sources o.include_size_numerator o.include_size_denominator)) };

    ghost inverse = { λ v. record {
      min_compaction_sources = v.least;
      max_compaction_sources = v.most;
      include_size_numerator = v.numerator;
      include_size_denominator = v.denominator;
    } };
}

impl SizeTieredCompactionSchedulerOptions {
    /// Options with these numbers. It is None if the least number of sources is 0, the greatest is
    /// below it, or the denominator is 0.
    pub fn try_new(
        min: u64,
        max: u64,
        num: u64,
        den: u64,
    ) -> Option<SizeTieredCompactionSchedulerOptions>
        ensures { result ≡ (if are_tiered (tiered_options min max num den)
            then Some (tiered_options min max num den) else None) }
    {
        if min == 0 || max < min || den == 0 {
            return None;
        }
        Some(SizeTieredCompactionSchedulerOptions {
            min_compaction_sources: min,
            max_compaction_sources: max,
            include_size_numerator: num,
            include_size_denominator: den,
        })
    }
}

/// From 4 to 8 sources, and runs of up to 4 times the size.
impl Default for SizeTieredCompactionSchedulerOptions {
    ghost is_default = { λ o. o ≡ default_options };

    fn default() -> SizeTieredCompactionSchedulerOptions {
        SizeTieredCompactionSchedulerOptions {
            min_compaction_sources: 4,
            max_compaction_sources: 8,
            include_size_numerator: 4,
            include_size_denominator: 1,
        }
    }
}

/// The options of a coordinator.
#[derive(Clone, Copy, Debug, PartialEq, Eq)]
pub struct CompactorOptions {
    /// A poll takes at most so many proposals, less the Running jobs.
    pub max_concurrent_compactions: u64,
    /// After how many milliseconds without a heartbeat a worker loses its job.
    pub worker_heartbeat_timeout_ms: u64,
    /// Whether a job whose tables need no merge is done at once, by a move.
    pub enable_trivial_move: bool,
    pub scheduler_options: SizeTieredCompactionSchedulerOptions,
}
