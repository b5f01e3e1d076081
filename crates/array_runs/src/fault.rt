// The text of a status on standard error.
ghost use Rattle.std.specs.Prelude.{◌≡◌, ◌≤◌, ◌∷◌, ◌++◌, take, length};
ghost use Rattle.std.specs.Fmt.{decimal};
ghost use Rattle.array_runs.specs.Fault.{refusal_text, status_text};

use crate::status::{Refusal, Status};
use texts::{MEDIA_FAULT, Piece, ShortText};

/// Writes the text of a status to the front of `buf` and returns its length in bytes, 0 for `Good`.
pub fn fault_text(status: &Status, buf: &mut [u8; 64]) -> usize
    ensures fits { result ≤ 64 }
    ensures text { take result buf.new ≡ status_text status.now }
    ensures whole { result ≡ length (status_text status.now) }
{
    let formed = status_text(status);
    let text = formed.as_bytes();
    buf[..text.len()].copy_from_slice(text);
    text.len()
}

fn status_text(status: &Status) -> ShortText
    ensures text { result ≡ status_text status.now }
    ensures fits { length result ≤ 64 }
{
    match status {
        Status::Good => ShortText::of(&[]),
        Status::Usage => ShortText::of(&[Piece::Words(b"usage")]),
        Status::TooLong => ShortText::of(&[Piece::Words(b"too long")]),
        Status::ReadFault => ShortText::of(&[Piece::Words(b"read fault")]),
        Status::WriteFault => ShortText::of(&[Piece::Words(b"write fault")]),
        Status::MediaFault => ShortText::of(&[Piece::Words(MEDIA_FAULT)]),
        Status::NoMemory => ShortText::of(&[Piece::Words(b"no memory")]),
        Status::Damaged { page } => ShortText::of(&[
            Piece::Words(b"damaged "),
            Piece::Number(u64::from(*page)),
        ]),
        Status::BadRow { logger, tid } => {
            two_numbers(b"bad row ", u64::from(*logger), u64::from(*tid))
        }
        Status::NotMars => ShortText::of(&[Piece::Words(b"not mars")]),
        Status::BadShape { which, given } => {
            two_numbers(b"bad shape ", u64::from(which.number()), *given)
        }
        Status::Refused(refusal) => refusal_text(refusal),
        Status::BadFrame { line } => {
            ShortText::of(&[Piece::Words(b"bad frame "), Piece::Number(*line)])
        }
        Status::Gap { expected, got } => two_numbers(b"gap ", *expected, *got),
    }
}

fn refusal_text(refusal: &Refusal) -> ShortText
    ensures text { result ≡ refusal_text refusal.now }
    ensures fits { length result ≤ 64 }
{
    match refusal {
        Refusal::Exists(name) => {
            ShortText::of(&[Piece::Words(b"exists "), Piece::Words(name.as_bytes())])
        }
        Refusal::TablesFull => ShortText::of(&[Piece::Words(b"tables full 8")]),
        Refusal::PagesFull { pages } => ShortText::of(&[
            Piece::Words(b"pages full "),
            Piece::Number(u64::from(*pages)),
        ]),
    }
}

// Words followed by two numbers with a space between them.
fn two_numbers(words: &[u8], n: u64, m: u64) -> ShortText
    requires { length words.now ≤ 10 }
    ensures text { result ≡ words.now ++ (decimal n ++ 32 ∷ decimal m) }
    ensures fits { length result ≤ 64 }
{
    ShortText::of(&[
        Piece::Words(words),
        Piece::Number(n),
        Piece::Words(b" "),
        Piece::Number(m),
    ])
}
