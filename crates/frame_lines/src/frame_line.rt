// What a line says of a frame.
ghost use Rattle.std.specs.Prelude.{ℕ, ◌≡◌, ◌++◌, List, MatchOption};
ghost use Rattle.frame_lines.specs.Lines.{frame_word};

/// What comes behind the word of a frame. `None` if the line does not begin with it.
pub(crate) fn behind_word(line: &[u8]) -> Option<&[u8]>
    ensures { MatchOption result ((rest : List ℕ) → line.now ≡ frame_word ++ rest → ⊥) (λ rest. line.now ≡ frame_word ++ rest.now) }
{
    match line {
        [b'f', b'r', b'a', b'm', b'e', b' ', rest @ ..] => Some(rest),
        _ => None,
    }
}
