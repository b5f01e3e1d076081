ghost use Rattle.std.specs.Prelude.{◌≡◌, ◌≢◌, ◌∷◌, ◌++◌, MatchOption, MatchBool};
ghost use Rattle.script_text.specs.Line.{IsPassedOver};
ghost use Rattle.script_text.specs.Reads.{IsWord};

/// The bytes before the first space and those after it.
pub fn split_word(bytes: &[u8]) -> Option<(&[u8], &[u8])>
    ensures { MatchOption result (IsWord bytes.now) (λ p. IsWord p.0.now × (bytes.now ≡ p.0.now ++ 32 ∷ p.1.now)) }
{
    for (i, byte) in bytes.iter().enumerate() {
        if *byte == b' ' {
            return Some((&bytes[..i], &bytes[i + 1..]));
        }
    }
    None
}

/// The bytes after a front, if they begin with it.
pub fn after<'a>(bytes: &'a [u8], front: &[u8]) -> Option<&'a [u8]>
    ensures { MatchOption result ((rest : _) → bytes.now ≢ front.now ++ rest) (λ rest. bytes.now ≡ front.now ++ rest.now) }
{
    if bytes.len() < front.len() {
        return None;
    }
    let (head, rest) = bytes.split_at(front.len());
    if is_text(head, front) {
        Some(rest)
    } else {
        None
    }
}

pub fn is_text(bytes: &[u8], text: &[u8]) -> bool
    ensures { MatchBool result (bytes.now ≡ text.now) (bytes.now ≢ text.now) }
{
    bytes == text
}

/// Whether a line is empty or begins with `#`.
pub fn is_passed_over(line: &[u8]) -> bool
    ensures { MatchBool result (IsPassedOver line.now) (IsPassedOver line.now → ⊥) }
{
    if line.is_empty() {
        return true;
    }
    line[0] == b'#'
}
