ghost use Rattle.std.specs.Prelude.{◌≡◌, ℕ, ◌-◌, ◌^◌, ◌<◌, ◌≤◌, length, take, min, None, Some, IfOk, OnOk, OnErr};
ghost use Rattle.std.specs.Io.KnownBytes.{Appends, WriteAppends};
ghost use Rattle.std.proofs.Common.{rules};
ghost use Rattle.cg_io.specs.Counts.{CountsTaken};
ghost use Rattle.cg_io.specs.Faults.{HasCause, one_more};

use crate::{Failed, Sink};
use std::io::Write;
use std::marker::Model;

/// A sink over a writer of std, such as standard output. It reports how many bytes it took, not which.
#[derive(Drop)]
pub struct StdoutSink<W: Write + Drop> {
    writer: W,
    // None after an overflow.
    counted: Option<u64>,
    faults: u64,
}

impl<W: Write + Drop> Model for StdoutSink<W> {
    ghost use Rattle.cg_io.specs.Adapter.{OutAdapter};

    ghost Value = { OutAdapter };

    ghost view = { λ s. record { bytes = W.contents s.writer; counted = s.counted; faults = s.faults } };
}

impl<W: Write + Drop> StdoutSink<W> {
    /// A sink over this writer, with no bytes and no faults so far.
    pub fn new(writer: W) -> StdoutSink<W>
        ensures { result ≡ record { bytes = W.contents writer; counted = Some 0; faults = 0 } }
    {
        StdoutSink {
            writer,
            counted: Some(0),
            faults: 0,
        }
    }
}

impl<W: Write + Drop> Sink for StdoutSink<W> {
    ghost taken = { λ _. None };

    ghost counted = { λ s. s.counted };

    ghost faults = { λ s. min s.faults (2 ^ 64 - 1) };

    ghost faults_fit = { λ s. Prim.search rules };

    /// Writes once, and flushes. An error of either is a fault, and so is a writer that takes nothing. After a failed
    /// flush some or all of the bytes may have gone out.
    fn write(&mut self, piece: &[u8]) -> Result<usize, Failed>
        requires { 0 < length piece.now }
        ensures bound { IfOk result (λ n. (0 < n) × (n ≤ length piece.now)) }
        ensures bytes { WriteAppends None None result piece.now }
        ensures counts { CountsTaken self.old.counted self.new.counted result }
        ensures cause { HasCause (min self.old.faults (2 ^ 64 - 1)) (min self.new.faults (2 ^ 64 - 1)) result }

        // The writer's bytes, if they are known, and the count.
        ensures writes { IfOk result (λ n. Appends self.old.bytes self.new.bytes (take n piece.now)) }
        ensures ok { OnOk result (self.new.faults ≡ self.old.faults) }
        ensures err { OnErr result (self.new.faults ≡ one_more self.old.faults) }
    {
        if let Ok(count) = self.writer.write(piece)
            && count > 0
            && self.writer.flush().is_ok()
        {
            self.counted = match self.counted {
                Some(before) => before.checked_add(count as u64),
                None => None,
            };
            return Ok(count);
        }
        self.faults = self.faults.saturating_add(1);
        Err(Failed)
    }
}
