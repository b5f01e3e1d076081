// The medium of a run.
ghost use Rattle.std.specs.Prelude.{◌≡◌};

use case_files::TracedMedia;
use mars_base::Failed;
use media_file::{FileMedia, HonestCalls};
use pcm_media::{Media, MemoryMedia};

/// The medium of a run of a case, which lies in memory or over a file. One type of both keeps this program short: a run is built once.
#[derive(Drop)]
pub enum RunMedia<M, F> {
    Memory(M),
    File(F),
}

/// What the runs of cases go over.
pub type Played = RunMedia<TracedMedia<MemoryMedia>, FileMedia<HonestCalls>>;

pub fn played_in_memory(media: TracedMedia<MemoryMedia>) -> Played {
    RunMedia::Memory(media)
}

pub fn played_over_file(media: FileMedia<HonestCalls>) -> Played {
    RunMedia::File(media)
}

impl<M: Drop, F: Drop> RunMedia<M, F> {
    /// The medium in memory, where that is what it is.
    pub fn into_memory(self) -> Option<M> {
        match self {
            RunMedia::Memory(media) => Some(media),
            RunMedia::File(_) => None,
        }
    }

    /// The medium over a file, where that is what it is.
    pub fn into_file(self) -> Option<F> {
        match self {
            RunMedia::Memory(_) => None,
            RunMedia::File(media) => Some(media),
        }
    }
}

impl<M: Media, F: Media> Media for RunMedia<M, F> {
    ghost use Rattle.std.specs.Prelude.{false};
    ghost use Rattle.std.proofs.lemmas.Bool.{false≢true};
    ghost use Rattle.case_runs.specs.RunView.{view_of, spent_of};

    ghost tells = { false };

    ghost view = { view_of M.view F.view };

    ghost steady = { λ m calls more. false };

    ghost spent = { spent_of M.spent F.spent };

    ghost long = { λ m told. absurd (false≢true told) };

    ghost counts_now = { λ m t image told le left. absurd (false≢true told) };

    ghost only_now = { λ m image told left. absurd (false≢true told) };

    fn len(&self) -> u64 {
        match self {
            RunMedia::Memory(media) => media.len(),
            RunMedia::File(media) => media.len(),
        }
    }

    fn moment(&self) -> u64 {
        match self {
            RunMedia::Memory(media) => media.moment(),
            RunMedia::File(media) => media.moment(),
        }
    }

    fn read(&mut self, at: u64, buf: &mut [u8]) -> Result<(), Failed> {
        match self {
            RunMedia::Memory(media) => media.read(at, buf),
            RunMedia::File(media) => media.read(at, buf),
        }
    }

    fn write(&mut self, at: u64, bytes: &[u8]) -> Result<(), Failed> {
        match self {
            RunMedia::Memory(media) => media.write(at, bytes),
            RunMedia::File(media) => media.write(at, bytes),
        }
    }

    fn barrier(&mut self) -> Result<(), Failed> {
        match self {
            RunMedia::Memory(media) => media.barrier(),
            RunMedia::File(media) => media.barrier(),
        }
    }

    fn fails_when_spent(&self) {
        match self {
            RunMedia::Memory(media) => media.fails_when_spent(),
            RunMedia::File(media) => media.fails_when_spent(),
        }
    }
}
