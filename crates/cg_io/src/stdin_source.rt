ghost use Rattle.std.specs.Prelude.{◌≡◌, ℕ, ◌-◌, ◌^◌, ◌<◌, length, min, None, OnOk, OnErr};
ghost use Rattle.std.specs.Io.{ReadsAtMost};
ghost use Rattle.std.specs.Io.KnownBytes.{ReadConsumes};
ghost use Rattle.std.proofs.Common.{rules};
ghost use Rattle.cg_io.specs.Faults.{HasCause, one_more};

use crate::{Failed, Source};
use std::io::Read;
use std::marker::Model;

/// A source over a reader of std, such as standard input. It doesn't report its bytes.
#[derive(Drop)]
pub struct StdinSource<R: Read + Drop> {
    reader: R,
    faults: u64,
}

impl<R: Read + Drop> Model for StdinSource<R> {
    ghost use Rattle.cg_io.specs.Adapter.{Adapter};

    ghost Value = { Adapter };

    ghost view = { λ s. record { bytes = R.remaining s.reader; faults = s.faults } };
}

impl<R: Read + Drop> StdinSource<R> {
    /// A source over this reader, with no faults so far.
    pub fn new(reader: R) -> StdinSource<R>
        ensures { result ≡ record { bytes = R.remaining reader; faults = 0 } }
    {
        StdinSource { reader, faults: 0 }
    }
}

impl<R: Read + Drop> Source for StdinSource<R> {
    ghost left = { λ _. None };

    ghost faults = { λ s. min s.faults (2 ^ 64 - 1) };

    ghost faults_fit = { λ s. Prim.search rules };

    /// Reads once. An error of the reader is a fault.
    fn read(&mut self, buffer: &mut [u8]) -> Result<usize, Failed>
        requires { 0 < length buffer.old }
        ensures bound { ReadsAtMost result buffer.new }
        ensures bytes { ReadConsumes None None result buffer.new }
        ensures cause { HasCause (min self.old.faults (2 ^ 64 - 1)) (min self.new.faults (2 ^ 64 - 1)) result }

        // The reader's bytes, if they are known, and the count.
        ensures reads { ReadConsumes self.old.bytes self.new.bytes result buffer.new }
        ensures ok { OnOk result (self.new.faults ≡ self.old.faults) }
        ensures err { OnErr result (self.new.faults ≡ one_more self.old.faults) }
    {
        match self.reader.read(buffer) {
            Ok(count) => Ok(count),
            Err(_) => {
                self.faults = self.faults.saturating_add(1);
                Err(Failed)
            }
        }
    }
}
