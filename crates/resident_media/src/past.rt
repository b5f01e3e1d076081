// What is noted of the calls of a medium that serves reads from memory. It exists in proofs alone.
ghost use Rattle.std.specs.Prelude.{◌≡◌, length};
ghost use Rattle.resident_media.specs.Past.{Past, newest, with_barrier, with_moment, with_spared, with_write};
ghost use Rattle.resident_media.specs.Noted.{at_first};

use ghost_notes::Notes;
use pcm_media::Media;
use std::marker::Model;

/// What was noted: contracts see it whole, and no code makes one.
#[derive(Drop)]
pub struct Past {
    ghost past: { Past },
}

impl Model for Past {
    ghost use base.Fml.{ftrue};
    ghost use Rattle.resident_media.specs.Past.{Past};

    ghost also_owns = { λ _. ftrue };

    ghost Value = { Past };

    ghost view = { λ p. p.past };
}

/// Over this medium, of which all that was and is shown is that below.
#[inline(always)]
pub fn at_first<M: Media>(inner: &M) -> Notes<Past>
    ensures { newest result.said ≡ at_first (M.view inner.now) }
{
    Notes::of(inner)
}

/// A moment has passed, over this medium.
#[inline(always)]
pub fn with_moment<M: Media>(notes: &Notes<Past>, inner: &M) -> Notes<Past>
    ensures { newest result.said ≡ with_moment (M.view inner.now) (newest notes.now.said) }
{
    Notes::of(&(notes, inner))
}

/// These bytes were handed on, to be written at a place.
#[inline(always)]
pub fn with_write(notes: &Notes<Past>, at: u64, bytes: &[u8]) -> Notes<Past>
    ensures { newest result.said ≡ with_write at (length bytes.now) (newest notes.now.said) }
{
    Notes::of(&(notes, at, bytes))
}

/// These bytes were to be written at a place, where they stood.
#[inline(always)]
pub fn with_spared(notes: &Notes<Past>, at: u64, bytes: &[u8]) -> Notes<Past>
    ensures { newest result.said ≡ with_spared at (length bytes.now) (newest notes.now.said) }
{
    Notes::of(&(notes, at, bytes))
}

/// A barrier succeeded.
#[inline(always)]
pub fn with_barrier(notes: &Notes<Past>) -> Notes<Past>
    ensures { newest result.said ≡ with_barrier (newest notes.now.said) }
{
    Notes::of(notes)
}
