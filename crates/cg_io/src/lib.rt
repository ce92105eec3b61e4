//! Where bytes come from and where they go.
//!
//! A [`Source`] and a [`Sink`] count their failures, so that a contract can say: an error only if the count rose. If
//! they report their bytes, it can also say what was read and written. The count has 64 bits and saturates; a saturated
//! count counts as risen in every call.
#![tactic(auto)]

ghost use Rattle.std.specs.Prelude.{◌≡◌, ℕ, ◌^◌, ◌<◌, ◌≤◌, List, length, Option, None, IfOk};
ghost use Rattle.std.specs.Io.{ReadsAtMost};
ghost use Rattle.std.specs.Io.KnownBytes.{ReadConsumes, WriteAppends};
ghost use Rattle.cg_io.specs.Counts.{CountsTaken};
ghost use Rattle.cg_io.specs.Faults.{HasCause};

mod memory_sink;
mod memory_source;
mod stdin_source;
mod stdout_sink;
mod steady_source;

pub use memory_sink::MemorySink;
pub use memory_source::MemorySource;
pub use stdin_source::StdinSource;
pub use stdout_sink::StdoutSink;
pub use steady_source::SteadySource;
use thiserror::Error;

/// The one error of a source or a sink.
#[derive(Clone, Copy, Debug, PartialEq, Eq, Error)]
#[error("the bytes could not be moved")]
pub struct Failed;

/// Where bytes come from.
pub trait Source {
    /// The bytes that are left, if the source reports them.
    ghost left: { Self → Option (List ℕ) };

    /// How many reads failed. It never falls.
    ghost faults: { Self → ℕ };

    /// Reads bytes into the front of the buffer, at least one if any is left. `Ok(0)` is the end. After `Failed`
    /// nothing was taken.
    fn read(&mut self, buffer: &mut [u8]) -> Result<usize, Failed>
        requires { 0 < length buffer.old }
        ensures bound { ReadsAtMost result buffer.new }
        ensures bytes { ReadConsumes (left self.old) (left self.new) result buffer.new }
        ensures cause { HasCause (faults self.old) (faults self.new) result };

    ghost faults_fit: { (s : Self) → faults s < 2 ^ 64 };
}

/// Where bytes go.
pub trait Sink {
    /// The bytes that it took, if the sink reports them.
    ghost taken: { Self → Option (List ℕ) };

    /// How many bytes it took, if the sink counts them.
    ghost counted: { Self → Option ℕ } = { λ _. None };

    /// How many writes failed. It never falls.
    ghost faults: { Self → ℕ };

    /// Takes at least one byte of the front of the piece. After `Failed` nothing was taken.
    fn write(&mut self, piece: &[u8]) -> Result<usize, Failed>
        requires { 0 < length piece.now }
        ensures bound { IfOk result (λ n. (0 < n) × (n ≤ length piece.now)) }
        ensures bytes { WriteAppends (taken self.old) (taken self.new) result piece.now }
        ensures counts { CountsTaken (counted self.old) (counted self.new) result }
        ensures cause { HasCause (faults self.old) (faults self.new) result };

    ghost faults_fit: { (s : Self) → faults s < 2 ^ 64 };
}
