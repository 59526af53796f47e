//! Small worked examples of the definitions. Each function has an empty body, and its clause states
//! values of definitions.

ghost use Rattle.std.specs.Prelude.{◌≡◌, ℕ, [], ◌∷◌};
ghost use Rattle.fleet_model.specs.Jobs.{JobSpec};
ghost use Rattle.fleet_model.specs.History.{Coordinator, Done, GetRecords, Kill, Lost, ManifestEpoch, PutManifest, Start, Worker};
ghost use Rattle.fleet_model.specs.Past.Live.{live_after};

/// The workers 1 and 2 start, and then the worker 1 is killed: only the worker 2 is live.
pub fn killed_workers_go()
    ensures { (specs : ℕ → JobSpec) → (live_after [] specs
        (record { line = 1; party = Worker 1; event = Start (Worker 1); answer = Done 0 }
        ∷ record { line = 2; party = Worker 2; event = Start (Worker 2); answer = Done 0 }
        ∷ record { line = 3; party = Worker 1; event = Kill (Worker 1); answer = Done 0 }
        ∷ [])).workers ≡ 2 ∷ [] }
{}

/// The worker 1 starts, and a get of it meets a fault: no worker is live.
pub fn struck_workers_go()
    ensures { (specs : ℕ → JobSpec) → (live_after [] specs
        (record { line = 1; party = Worker 1; event = Start (Worker 1); answer = Done 0 }
        ∷ record { line = 2; party = Worker 1; event = GetRecords; answer = Lost }
        ∷ [])).workers ≡ [] }
{}

/// The coordinator 1 puts the epoch 1 and starts, and then it is killed: no coordinator is live.
pub fn killed_coordinators_go()
    ensures { (specs : ℕ → JobSpec) → (live_after [] specs
        (record {
          line = 1;
          party = Coordinator 1;
          event = PutManifest (ManifestEpoch 1);
          answer = Done 2;
        }
        ∷ record {
          line = 1;
          party = Coordinator 1;
          event = Start (Coordinator 1);
          answer = Done 0;
        }
        ∷ record {
          line = 2;
          party = Coordinator 1;
          event = Kill (Coordinator 1);
          answer = Done 0;
        }
        ∷ [])).coordinators ≡ [] }
{}
