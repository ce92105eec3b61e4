//! Writing a whole text.
ghost use Rattle.std.specs.Prelude.{length, OnOk, OnErr};
ghost use Rattle.std.specs.Io.KnownBytes.{Appends};
ghost use Rattle.cg_io.specs.Counts.{CountsMore};
ghost use Rattle.cg_io.specs.Faults.{HasCause};
ghost use Rattle.cg_session.specs.Written.{AppendsFront};

use cg_io::{Failed, Sink};

/// Writes the rest of the text until all of it is taken. It allocates nothing.
pub fn write_all<K: Sink>(sink: &mut K, text: &[u8]) -> Result<(), Failed>
    ensures whole { OnOk result (Appends (K.taken sink.old) (K.taken sink.new) text.now) }
    ensures counted { OnOk result (CountsMore (length text.now) (K.counted sink.old) (K.counted sink.new)) }
    ensures front { OnErr result (AppendsFront text.now (K.taken sink.old) (K.taken sink.new)) }
    ensures cause { HasCause (K.faults sink.old) (K.faults sink.new) result }
{
    let mut rest = text;
    while !rest.is_empty() {
        let count = sink.write(rest)?;
        rest = &rest[count..];
    }
    Ok(())
}
