//! A heap of an octal game.
ghost use Rattle.std.specs.Prelude.{◌≡◌, ◌≤◌, length};
ghost use Rattle.cg_octal.specs.Codes.{AreOctal, IsOctalHeap};

use std::marker::Model;

/// A code of an octal game, 1 to 16 digits from 0 to 7, and a heap of at most 1,000 tokens. Contracts see its digits
/// and its heap.
#[derive(Debug, Drop)]
pub struct Octal {
    digits: Vec<u8>,
    heap: u64,
}

impl Model for Octal {
    ghost use Rattle.cg_octal.specs.Codes.{OctalHeap, IsOctalHeap};
    ghost use Rattle.cg_octal.specs.HeapCode.{octal_code};

    ghost Value = { OctalHeap };

    ghost coded = { octal_code };

    ghost view = { λ o. record { digits = o.digits.items; heap = o.heap } };

    ghost invariant = { λ o. IsOctalHeap (record { digits = o.digits.items; heap = o.heap }) };
}

impl Octal {
    pub(crate) fn of(digits: Vec<u8>, heap: u64) -> Octal
        requires { IsOctalHeap (record { digits = digits.items; heap = heap }) }
        ensures digits { result.digits ≡ digits.items }
        ensures heap { result.heap ≡ heap }
    {
        Octal { digits, heap }
    }

    /// The digits; the first is that of removing one token.
    pub fn digits(&self) -> &[u8]
        ensures value { result.now ≡ self.now.digits }
        ensures octal { AreOctal result.now }
        ensures some { 1 ≤ length result.now }
        ensures few { length result.now ≤ 16 }
    {
        &self.digits
    }

    /// How many tokens the heap has, at most 1,000.
    pub fn heap(&self) -> u64
        ensures value { result ≡ self.now.heap }
        ensures within { result ≤ 1000 }
    {
        self.heap
    }
}
