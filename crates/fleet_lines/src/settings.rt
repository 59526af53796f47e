//! The lines that set the options, the moment or a fault.

ghost use Rattle.std.specs.Prelude.{◌≡◌, Some, IfOk, IsOkUnless};
ghost use Rattle.std.specs.Option.{unwrap_or};
ghost use Rattle.fleet_rows.specs.declared.errors.SlateDBError.TheVariants as SlateDBError;
ghost use Rattle.script_model.specs.Replies.{ok};

use crate::{Fleet, FleetOptions};
use fleet_rows::SlateDBError;
use fleet_sched::CompactorOptions;
use fleet_text::{Reply, answers};
use fleet_worker::CompactionWorkerOptions;

impl Fleet {
    /// Sets the options. The scheduler's options stay.
    pub(crate) fn set_options(
        &mut self,
        timeout: u64,
        concurrent: u64,
        slots: u64,
        ranges: u64,
        table_size: u64,
        moves: bool,
        retention: Option<u64>,
    ) -> Result<Reply, SlateDBError>
        ensures reply { IfOk result (λ answer. answer ≡ ok) }
        ensures set { self.new ≡ record self.old {
          options = record {
            compactor = record {
              max_concurrent_compactions = concurrent;
              worker_heartbeat_timeout_ms = timeout;
              enable_trivial_move = moves;
              scheduler_options = self.old.options.compactor.scheduler_options;
            };
            worker = record {
              max_concurrent_compactions = slots;
              max_subcompactions = ranges;
              max_sst_size = table_size;
              retention_ms = unwrap_or retention 0;
            };
          };
        } }
        ensures memory { IsOkUnless result SlateDBError.Memory }
    {
        self.options = FleetOptions {
            compactor: CompactorOptions {
                max_concurrent_compactions: concurrent,
                worker_heartbeat_timeout_ms: timeout,
                enable_trivial_move: moves,
                scheduler_options: self.options.compactor.scheduler_options,
            },
            worker: CompactionWorkerOptions {
                max_concurrent_compactions: slots,
                max_subcompactions: ranges,
                max_sst_size: table_size,
                retention_ms: retention.unwrap_or(0),
            },
        };
        answers::done(self.alloc)
    }

    /// Sets the moment, in milliseconds.
    pub(crate) fn set_clock(&mut self, moment: u64) -> Result<Reply, SlateDBError>
        ensures reply { IfOk result (λ answer. answer ≡ ok) }
        ensures set { self.new ≡ record self.old { moment = moment } }
        ensures memory { IsOkUnless result SlateDBError.Memory }
    {
        self.moment = moment;
        answers::done(self.alloc)
    }

    /// A fault strikes the get or put with this number, counted from 1 from now on.
    pub(crate) fn set_fault(&mut self, k: u32, stands: bool) -> Result<Reply, SlateDBError>
        ensures reply { IfOk result (λ answer. answer ≡ ok) }
        ensures set { self.new ≡ record self.old {
          store = record self.old.store { waits = Some (record { k = k; stands = stands }) };
        } }
        ensures memory { IsOkUnless result SlateDBError.Memory }
    {
        self.store.set_fault(k, stands);
        answers::done(self.alloc)
    }
}
