//! The text of a session: the sample, or the whole input.
ghost use Rattle.std.specs.Prelude.{◌≡◌, ◌+◌, ◌<◌, ◌^◌, ◌≤◌, length, IfOk, IfSome, OnOk, IsErrOf};
ghost use Rattle.std.specs.Io.KnownBytes.{Consumes, IsAtEnd};
ghost use Rattle.cg_io.specs.Faults.{Rose};
ghost use Rattle.cg_session.specs.Input.{ReadsAll, Takes, TakesAtMost};
ghost use Rattle.cg_session.specs.Settings.{IsWithinBytes, session_text};
ghost use Rattle.cg_words.specs.Accepted.{InRange};

use cg_io::{Failed, Source};
use cg_sample::sample;
use cg_words::Settings;
use std::alloc::{AllocError, Global};

const MOST_BYTES: usize = 1_048_576;

const BUFFER_BYTES: usize = 32_768;

/// Why there is no text of a session.
#[derive(Clone, Copy, Debug, PartialEq, Eq)]
pub enum TextFault {
    Read,
    Memory,
    TooLong,
}

/// The text of the session: the sample if one is asked for, otherwise the bytes of the source to its end. With a sample
/// nothing is read.
pub fn session_text<S: Source>(
    alloc: Global,
    settings: Settings,
    source: &mut S,
) -> Result<Vec<u8>, TextFault>
    requires { InRange settings }
    ensures text { IfOk result (λ text. IfSome (session_text settings (S.left source.old)) (λ all. text.items ≡ all)) }
    ensures within { IfOk result (λ text. IsWithinBytes text.items) }
    ensures end { settings.sample ≡ 0 → OnOk result (IsAtEnd (S.left source.new)) }
    ensures all { settings.sample ≡ 0 → OnOk result (ReadsAll (S.left source.old) (S.left source.new)) }
    ensures sample { 0 < settings.sample → source.new ≡ source.old }

    ensures failed { IsErrOf result TextFault.Read
        → (settings.sample ≡ 0) × Rose (S.faults source.old) (S.faults source.new)
        × TakesAtMost (2 ^ 20) (S.left source.old) (S.left source.new) }
    ensures too_long { IsErrOf result TextFault.TooLong
        → (settings.sample ≡ 0) × Takes (2 ^ 20 + 1) (S.left source.old) (S.left source.new) }

    ensures taken { TakesAtMost (2 ^ 20 + 1) (S.left source.old) (S.left source.new) }
    ensures never_falls { S.faults source.old ≤ S.faults source.new }
{
    if settings.sample == 0 {
        return read_input(alloc, source);
    }
    match sample(alloc, settings.sample) {
        Ok(text) => Ok(text.into_bytes()),
        Err(AllocError) => Err(TextFault::Memory),
    }
}

/// The bytes of the source to its end. It reads at most one byte past the limit.
pub fn read_input<S: Source>(alloc: Global, source: &mut S) -> Result<Vec<u8>, TextFault>
    ensures whole { IfOk result (λ input. Consumes (S.left source.old) (S.left source.new) input.items) }
    ensures end { OnOk result (IsAtEnd (S.left source.new)) }
    ensures within { IfOk result (λ input. IsWithinBytes input.items) }

    ensures failed { IsErrOf result TextFault.Read → Rose (S.faults source.old) (S.faults source.new)
        × TakesAtMost (2 ^ 20) (S.left source.old) (S.left source.new) }
    ensures too_long { IsErrOf result TextFault.TooLong → Takes (2 ^ 20 + 1) (S.left source.old) (S.left source.new) }

    ensures taken { TakesAtMost (2 ^ 20 + 1) (S.left source.old) (S.left source.new) }
    ensures never_falls { S.faults source.old ≤ S.faults source.new }
{
    let mut input = Vec::new(alloc);
    let mut buffer = [0; BUFFER_BYTES];
    while input.len() <= MOST_BYTES {
        let room = (MOST_BYTES + 1 - input.len()).min(BUFFER_BYTES);
        let count = match source.read(&mut buffer[..room]) {
            Ok(0) => return Ok(input),
            Ok(count) => count,
            Err(Failed) => return Err(TextFault::Read),
        };
        if input.extend_from_slice(&buffer[..count]).is_err() {
            return Err(TextFault::Memory);
        }
    }
    Err(TextFault::TooLong)
}
