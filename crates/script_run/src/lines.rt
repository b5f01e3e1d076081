ghost use Rattle.std.specs.Prelude.{◌≡◌, ◌<◌, [], ◌∷◌, length, MatchOption};
ghost use Rattle.script_run.specs.Lines.{lines_of};

/// The first line without its newline, and what comes after it. An empty input has none.
pub fn next_line(bytes: &[u8]) -> Option<(&[u8], &[u8])>
    ensures { MatchOption result (bytes.now ≡ []) (λ p. (lines_of bytes.now ≡ p.0.now ∷ lines_of p.1.now) × (length p.1.now < length bytes.now)) }
{
    for (i, b) in bytes.iter().enumerate() {
        if *b == b'\n' {
            return Some((&bytes[..i], &bytes[i + 1..]));
        }
    }
    if bytes.is_empty() {
        return None;
    }
    Some((bytes, &[]))
}
