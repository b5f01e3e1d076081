// A medium over a chip of which nothing is known. It tells nothing of its bytes (`tells` is false), so its contract needs no proof: what is
// left is the moment and the count of faults. Put the transfers of your device in the place of `Chip`.
ghost use Rattle.std.specs.Prelude.{◌≡◌};
ghost use Rattle.mars_base.specs.Causes.{HasCause};
ghost use Rattle.mars_base.specs.Moments.{Ticks};

use mars_base::Failed;
use pcm_media::Media;

/// The transfers of a device. Each says whether it was done in full.
pub trait Chip {
    fn fetch(&mut self, at: u64, buf: &mut [u8]) -> bool;

    fn program(&mut self, at: u64, bytes: &[u8]) -> bool;

    fn settle(&mut self) -> bool;
}

/// The first `size` bytes of a chip, as a medium.
#[derive(Drop)]
pub struct Flash<C: Chip> {
    chip: C,
    size: u64,
    moment: u64,
    faults: u64,
}

impl<C: Chip> Flash<C> {
    pub fn over(chip: C, size: u64) -> Flash<C> {
        Flash {
            chip,
            size,
            moment: 0,
            faults: 0,
        }
    }

    // A call is over: the moment rises by one. A call at its last value fails, and each that fails is counted.
    fn ended(&mut self, done: bool) -> Result<(), Failed>
        ensures size { self.new.size ≡ self.old.size }
        ensures ticks { Ticks self.old.moment self.new.moment result }
        ensures cause { HasCause self.old.faults self.new.faults result }
    {
        if done && self.moment < u64::MAX {
            self.moment += 1;
            return Ok(());
        }
        self.moment = self.moment.saturating_add(1);
        self.faults = self.faults.saturating_add(1);
        Err(Failed)
    }
}

impl<C: Chip> Media for Flash<C> {
    ghost use Rattle.std.specs.Prelude.{false};
    ghost use Rattle.std.proofs.lemmas.Bool.{false≢true};
    ghost use Rattle.pcm_media.specs.Images.{no_content};

    ghost tells = { false };

    ghost view = { λ m. record { size = m.size; content = no_content; moment = m.moment; left_since = λ _ _. Unit {0}; faults = m.faults; device = no_content } };

    ghost steady = { λ _ _ _. false };

    ghost spent = { λ _. Unit {0} };

    ghost long = { λ m told. absurd (false≢true told) };

    ghost counts_now = { λ m t image told le left. absurd (false≢true told) };

    ghost only_now = { λ m image told left. absurd (false≢true told) };

    fn len(&self) -> u64 {
        self.size
    }

    fn moment(&self) -> u64 {
        self.moment
    }

    fn read(&mut self, at: u64, buf: &mut [u8]) -> Result<(), Failed> {
        let done = self.chip.fetch(at, buf);
        self.ended(done)
    }

    fn write(&mut self, at: u64, bytes: &[u8]) -> Result<(), Failed> {
        let done = self.chip.program(at, bytes);
        self.ended(done)
    }

    fn barrier(&mut self) -> Result<(), Failed> {
        let done = self.chip.settle();
        self.ended(done)
    }

    fn fails_when_spent(&self) {}
}
