ghost use Rattle.std.specs.Prelude.{◌≡◌, List, ℕ, ◌++◌, OnOk, OnErr, IsTrue, true};
ghost use Rattle.mars_base.specs.Causes.{HasCause};
ghost use Rattle.texts.specs.Written.{IsWritten, Wrote};

use mars_base::Failed;
use outside::Sink;

/// Writes the whole piece.
pub fn write_whole<K: Sink>(sink: &mut K, piece: &[u8]) -> Result<(), Failed>
    ensures whole { OnOk result (IsTrue K.tells → K.written sink.new ≡ K.written sink.old ++ piece.now) }
    ensures part { OnErr result ((part : List ℕ) × IsWritten true part piece.now × (IsTrue K.tells → K.written sink.new ≡ K.written sink.old ++ part)) }
    ensures cause { HasCause (K.faults sink.old) (K.faults sink.new) result }
{
    let mut rest = piece;
    while !rest.is_empty() {
        let count = sink.write(rest)?;
        rest = &rest[count..];
    }
    Ok(())
}

/// Writes as much of the piece as the sink takes.
pub fn write_front<K: Sink>(sink: &mut K, piece: &[u8])
    ensures { Wrote K.tells (K.written sink.old) (K.written sink.new) (K.faults sink.old) (K.faults sink.new) (λ cut part. IsWritten cut part piece.now) }
{
    match write_whole(sink, piece) {
        Ok(()) => {}
        Err(_) => {}
    }
}
