// Makes a fresh array on the medium and writes its lengths.
ghost use Rattle.std.specs.Prelude.{◌≡◌, ◌↔◌, IsOk, IfOk, IfErr, IsTrue};
ghost use Rattle.array_shape.specs.declared.shape.Shape.{Shape};
ghost use Rattle.array_shape.specs.Numbers.{IsFirstBad};
ghost use Rattle.array_shape.specs.Places.{media_len};
ghost use Rattle.mars_shell.specs.Formats.{CanBe, HasAsked, asked_for, formatted_line, FormatSays, FormatOutcome};
ghost use Rattle.array_runs.specs.Statuses.{Counts, IsRefusal};
ghost use Rattle.texts.specs.Written.{Wrote};

use array_runs::Status;
use array_shape::{BadShape, Shape, ShapeNumber};
use command_words::FormatNumbers;
use eaw_device::{FormatFault, format};
use outside::Sink;
use pcm_media::Media;
use texts::{Piece, ShortText, write_whole};

/// The length in bytes of the medium of such an array, or 0 if a number is out of range.
pub(crate) fn room_of(asked: &FormatNumbers) -> u64
    ensures room { (shape : Shape) → HasAsked asked.now shape → result ≡ media_len shape }
    ensures no_room { ¬ CanBe asked.now → result ≡ 0 }
{
    match shape_of(asked) {
        Ok(shape) => shape.media_len(),
        Err(_) => 0,
    }
}

/// Makes a fresh array on the medium, writes a line with the lengths of the medium and of the data, and returns the medium.
pub(crate) fn run_format<K: Sink, M: Media>(
    sink: &mut K,
    mut media: M,
    asked: &FormatNumbers,
) -> (Status, M)
    // If a number or the medium's length is wrong, everything is left alone. Nothing is written unless an array was made.
    ensures refused { IsRefusal result.0 → sink.new ≡ sink.old }
    ensures says { FormatSays asked.now (M.view media).size result.0 (sink.new ≡ sink.old) (result.1 ≡ media) }
    ensures counts { Counts result.0 0 0 (K.faults sink.old) (K.faults sink.new) (M.view media).faults (M.view result.1).faults }
    // Some text was written, cut short only if the sink failed, and each status has its cause.
    ensures ran { Wrote K.tells (K.written sink.old) (K.written sink.new) (K.faults sink.old) (K.faults sink.new)
        (λ cut text. IsTrue M.tells → FormatOutcome asked.now (M.view media) result.0 (M.view result.1) cut text) }
{
    let shape = match shape_of(asked) {
        Ok(shape) => shape,
        Err(BadShape { which, given }) => return (Status::BadShape { which, given }, media),
    };
    match format(&mut media, &shape) {
        Ok(()) => {}
        Err(FormatFault::BadShape(BadShape { which, given })) => {
            return (Status::BadShape { which, given }, media);
        }
        Err(FormatFault::Media) => return (Status::MediaFault, media),
    }
    let line = formatted_line(shape);
    match write_whole(sink, line.as_bytes()) {
        Ok(()) => (Status::Good, media),
        Err(_) => (Status::WriteFault, media),
    }
}

// The shape with these numbers, or the first number that is out of range.
fn shape_of(asked: &FormatNumbers) -> Result<Shape, BadShape>
    ensures good { IsOk result ↔ CanBe asked.now }
    ensures shape { IfOk result (HasAsked asked.now) }
    ensures bad { IfErr result (λ bad. IsFirstBad asked.now.loggers asked.now.numbers asked.now.entries asked.now.pages bad.which bad.given) }
{
    // A number that no byte holds is out of range, as 255 is, but it is reported as it was asked for.
    let loggers = asked.loggers.min(255) as u8;
    let numbers = asked.numbers.min(255) as u8;
    match Shape::new(loggers, numbers, asked.entries, u32::from(asked.pages)) {
        Ok(shape) => Ok(shape),
        Err(BadShape { which, given }) => Err(BadShape {
            which,
            given: asked_for(asked, which, given),
        }),
    }
}

fn asked_for(asked: &FormatNumbers, which: ShapeNumber, given: u64) -> u64
    ensures { result ≡ asked_for asked.now which given }
{
    match which {
        ShapeNumber::Loggers => u64::from(asked.loggers),
        ShapeNumber::Numbers => u64::from(asked.numbers),
        ShapeNumber::Entries | ShapeNumber::Pages | ShapeNumber::MediaLength => given,
    }
}

// The line of a fresh array. It is formed without memory, so the status does not depend on memory.
fn formatted_line(shape: Shape) -> ShortText
    ensures { result ≡ formatted_line shape }
{
    ShortText::of(&[
        Piece::Words(b"formatted "),
        Piece::Number(shape.media_len()),
        Piece::Words(b" "),
        Piece::Number(shape.data_len()),
        Piece::Words(b"\n"),
    ])
}
