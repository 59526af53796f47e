//! Where a script comes from, and where its replies go.

ghost use Rattle.std.specs.Prelude.{◌≡◌, ◌<◌, ◌≤◌, ◌==◌, false, length, IfOk, OnErr};
ghost use Rattle.std.specs.Io.KnownBytes.{ReadConsumes, WriteAppends};
ghost use Rattle.fleet_run.specs.SourceAndSink.{SourceView, SinkView, Rose, counted_bytes};

/// A read or a write failed.
#[derive(Clone, Copy, Debug, PartialEq, Eq)]
pub struct Failed;

/// A source of the bytes of a script.
pub trait Source {
    /// What contracts see of a source: its bytes, how many it gave, whether it has ended, and how
    /// many reads failed.
    ghost view: { Self → SourceView };

    /// Fills the front of the buffer and returns the length of that front. If the buffer has room,
    /// 0 means that the source has ended.
    fn read(&mut self, into: &mut [u8]) -> Result<usize, Failed>
        ensures at_most { IfOk result (λ n. n ≤ length into.old) }
        ensures bytes { ReadConsumes (view self.old).left (view self.new).left result into.new }
        ensures given { IfOk result (λ n. (view self.new).given ≡ counted_bytes (view self.old).given n) }
        ensures none_given { OnErr result ((view self.new).given ≡ (view self.old).given) }
        ensures ended { IfOk result (λ n. 0 < length into.old → (view self.new).ended ≡ (n == 0)) }
        ensures not_ended { OnErr result (0 < length into.old → (view self.new).ended ≡ false) }
        ensures without_room { length into.old ≡ 0 → (view self.new).ended ≡ (view self.old).ended }
        ensures failed { OnErr result (Rose (view self.old).faults (view self.new).faults) }
        ensures never_fall { (view self.old).faults ≤ (view self.new).faults };
}

/// A sink for the replies to a script.
pub trait Sink {
    /// What contracts see of a sink: the bytes that it took, how many, and how many writes failed.
    ghost view: { Self → SinkView };

    /// Takes the front of the piece and returns the length of that front. A sink that takes nothing
    /// of a piece that is not empty has failed, even if it returns Ok.
    fn write(&mut self, from: &[u8]) -> Result<usize, Failed>
        ensures at_most { IfOk result (λ n. n ≤ length from.now) }
        ensures bytes { WriteAppends
            (view self.old).written (view self.new).written result from.now }
        ensures taken { IfOk result (λ n. (view self.new).taken ≡ counted_bytes (view self.old).taken n) }
        ensures none_taken { OnErr result ((view self.new).taken ≡ (view self.old).taken) }
        ensures failed { OnErr result (Rose (view self.old).faults (view self.new).faults) }
        ensures took_nothing { IfOk result (λ n. n
            ≡ 0 → 0 < length from.now → Rose (view self.old).faults (view self.new).faults) }
        ensures never_fall { (view self.old).faults ≤ (view self.new).faults };
}
