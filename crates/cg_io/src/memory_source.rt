ghost use Rattle.std.specs.Prelude.{◌≡◌, ℕ, ◌-◌, ◌^◌, ◌<◌, ◌≤◌, ◌↔◌, length, min, Some, IfOk, OnErr, IsErr, Contains};
ghost use Rattle.std.specs.Io.{ReadsAtMost};
ghost use Rattle.std.specs.Io.KnownBytes.{ReadConsumes};
ghost use Rattle.std.proofs.Common.{rules};
ghost use Rattle.cg_io.specs.Faults.{HasCause, one_more};
ghost use Rattle.cg_io.specs.Supply.{fresh_supply, given_len, after_giving, after_refusing};

use crate::{Failed, Source};
use std::marker::Model;

/// A source in memory, which fails when it is told to.
///
/// It gives at most `most` bytes a call. It fails at the calls whose numbers, from 1, are in `fails`. Both counters
/// saturate at 2^64 - 1.
#[derive(Drop)]
pub struct MemorySource {
    bytes: Vec<u8>,
    at: usize,
    most: usize,
    fails: Vec<u64>,
    calls: u64,
    faults: u64,
}

impl Model for MemorySource {
    ghost use Rattle.std.specs.Prelude.{◌<◌, ◌≤◌, length, drop};
    ghost use Rattle.cg_io.specs.Supply.{Supply};

    ghost Value = { Supply };

    ghost view = { λ s. record {
      bytes = drop s.at s.bytes.items;
      most = s.most;
      fails = s.fails.items;
      calls = s.calls;
      faults = s.faults;
    } };

    ghost invariant = { λ s. (0 < s.most) × (s.at ≤ length s.bytes.items) };
}

impl MemorySource {
    /// A source of these bytes; the first call has the number 1.
    pub fn new(bytes: Vec<u8>, most: usize, fails: Vec<u64>) -> MemorySource
        requires { 0 < most }
        ensures { result ≡ fresh_supply bytes.items most fails.items }
    {
        MemorySource {
            bytes,
            at: 0,
            most,
            fails,
            calls: 0,
            faults: 0,
        }
    }
}

impl Source for MemorySource {
    ghost left = { λ m. Some m.bytes };

    ghost faults = { λ m. min m.faults (2 ^ 64 - 1) };

    ghost faults_fit = { λ m. Prim.search rules };

    fn read(&mut self, buffer: &mut [u8]) -> Result<usize, Failed>
        requires { 0 < length buffer.old }
        ensures bound { ReadsAtMost result buffer.new }
        ensures bytes { ReadConsumes (Some self.old.bytes) (Some self.new.bytes) result buffer.new }
        ensures cause { HasCause (min self.old.faults (2 ^ 64 - 1)) (min self.new.faults (2 ^ 64 - 1)) result }

        ensures fails { IsErr result ↔ Contains self.old.fails (one_more self.old.calls) }
        ensures count { IfOk result (λ n. n ≡ given_len self.old (length buffer.old)) }
        ensures ok { IfOk result (λ n. self.new ≡ after_giving self.old n) }
        ensures err { OnErr result (self.new ≡ after_refusing self.old) }
    {
        self.calls = self.calls.saturating_add(1);
        if self.fails.contains(&self.calls) {
            self.faults = self.faults.saturating_add(1);
            return Err(Failed);
        }
        let rest = &self.bytes[self.at..];
        let count = rest.len().min(buffer.len()).min(self.most);
        buffer[..count].copy_from_slice(&rest[..count]);
        self.at += count;
        Ok(count)
    }
}
