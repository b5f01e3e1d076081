// The source over a reader of std, and the sink over a writer.
ghost use Rattle.std.specs.Prelude.{◌≡◌, ◌≤◌, false, [], length, IfOk};
ghost use Rattle.std.specs.Io.KnownBytes.{ReadConsumes, WriteAppends};
ghost use Rattle.mars_base.specs.Causes.{HasCause, faults_after};
ghost use Rattle.outside.specs.Told.{TakesPart};

use crate::turn::{Turn, turn_of};
use crate::{Sink, Source};
use mars_base::Failed;
use std::io::{Read, Write};
use std::marker::Model;

/// A reader or a writer of std as a source or a sink. It does not tell its bytes: no contract says what the outside gives or takes.
#[derive(Drop)]
pub struct StdStream<T> {
    inner: T,
    faults: u64,
}

impl<T> Model for StdStream<T> {
    ghost use Rattle.outside.specs.Standard.{Stream};

    ghost Value = { Stream T };

    ghost view = { λ s. record { inner = s.inner; faults = s.faults } };
}

impl<T> StdStream<T> {
    /// One that has not failed yet.
    pub fn new(inner: T) -> Self
        ensures { result ≡ record { inner = inner; faults = 0 } }
    {
        StdStream { inner, faults: 0 }
    }
}

impl<R: Read> Source for StdStream<R> {
    ghost tells = { false };

    ghost left = { λ _. [] };

    ghost faults = { λ s. s.faults };

    ghost steady = { λ _. false };

    ghost spent = { λ _. Unit {0} };

    fn read(&mut self, buf: &mut [u8]) -> Result<usize, Failed>
        ensures bound { IfOk result (λ n. n ≤ length buf.new) }
        ensures passed_on { ReadConsumes (R.remaining self.old.inner) (R.remaining self.new.inner) result buf.new }
        ensures faults { self.new.faults ≡ faults_after self.old.faults result }
        ensures cause { HasCause self.old.faults self.new.faults result }
    {
        read_again(&mut self.inner, &mut self.faults, buf)
    }

    fn fails_when_spent(&self) {}
}

// A read that is made again if a signal came first.
fn read_again<R: Read>(reader: &mut R, faults: &mut u64, buf: &mut [u8]) -> Result<usize, Failed>
    ensures bound { IfOk result (λ n. n ≤ length buf.new) }
    ensures passed_on { ReadConsumes (R.remaining reader.old) (R.remaining reader.new) result buf.new }
    ensures counted { faults.new ≡ faults_after faults.old result }
    ensures later { faults.old ≤ faults.new }
{
    'turns: for _ in 0..u64::MAX {
        match turn_of(reader.read(buf), 0, faults) {
            Turn::Done(count) => return Ok(count),
            Turn::Again => {}
            Turn::Failed => return Err(Failed),
        }
    }
    *faults = faults.saturating_add(1);
    Err(Failed)
}

impl<W: Write> Sink for StdStream<W> {
    ghost tells = { false };

    ghost written = { λ _. [] };

    ghost faults = { λ s. s.faults };

    ghost steady = { λ _ _. false };

    ghost spent = { λ _. Unit {0} };

    /// A writer that takes nothing of a nonempty piece has failed.
    fn write(&mut self, piece: &[u8]) -> Result<usize, Failed>
        ensures part { TakesPart result piece.now }
        ensures passed_on { WriteAppends (W.contents self.old.inner) (W.contents self.new.inner) result piece.now }
        ensures faults { self.new.faults ≡ faults_after self.old.faults result }
        ensures cause { HasCause self.old.faults self.new.faults result }
    {
        write_again(&mut self.inner, &mut self.faults, piece)
    }

    fn fails_when_spent(&self) {}
}

// A write that is made again if a signal came first.
fn write_again<W: Write>(writer: &mut W, faults: &mut u64, piece: &[u8]) -> Result<usize, Failed>
    ensures part { TakesPart result piece.now }
    ensures passed_on { WriteAppends (W.contents writer.old) (W.contents writer.new) result piece.now }
    ensures counted { faults.new ≡ faults_after faults.old result }
    ensures later { faults.old ≤ faults.new }
{
    let least = piece.len().min(1);
    'turns: for _ in 0..u64::MAX {
        match turn_of(writer.write(piece), least, faults) {
            Turn::Done(count) => return Ok(count),
            Turn::Again => {}
            Turn::Failed => return Err(Failed),
        }
    }
    *faults = faults.saturating_add(1);
    Err(Failed)
}
