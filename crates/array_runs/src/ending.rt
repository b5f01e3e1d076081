// The end of work whose text is written at once.
ghost use Rattle.std.specs.Prelude.{◌≡◌, ◌⊎◌, if◌then◌else◌};
ghost use Rattle.texts.specs.Written.{IsWritten, Wrote};

use outside::Sink;
use script_run::Ended;
use texts::write_whole;

/// Writes the text of work that came to its end, and says how it then ended.
pub fn write_ended<K: Sink>(sink: &mut K, text: &[u8]) -> Ended
    ensures wrote { Wrote K.tells (K.written sink.old) (K.written sink.new) (K.faults sink.old) (K.faults sink.new)
        (λ cut part. (result ≡ (if cut then Ended.WriteFault else Ended.All)) × IsWritten cut part text.now) }
    ensures end { (result ≡ Ended.All) ⊎ (result ≡ Ended.WriteFault) }
{
    match write_whole(sink, text) {
        Ok(()) => Ended::All,
        Err(_) => Ended::WriteFault,
    }
}
