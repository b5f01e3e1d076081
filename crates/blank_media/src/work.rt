// The counts of a medium, and what proofs know of its calls.
ghost use Rattle.std.specs.Prelude.{◌≡◌, ◌-◌, ◌^◌, [], ◌∷◌, IsErr, OnErr};
ghost use Rattle.tape_media.specs.Tape.{Takes};
ghost use Rattle.blank_media.specs.Changes.{blank, step_of};

use crate::change::Change;
use ghost_notes::Notes;
use mars_base::Failed;
use std::marker::Model;
use tape_media::MadeStep;

#[derive(Drop)]
pub struct Work {
    // How many zeros there were at first.
    len: u64,
    moment: u64,
    faults: u64,
    // The writes and barriers so far.
    notes: Notes<MadeStep>,
}

impl Model for Work {
    ghost use Rattle.tape_media.specs.Tape.{Tape};
    ghost use Rattle.blank_media.specs.Changes.{tape_of};

    ghost Value = { Tape };

    ghost view = { λ w. tape_of w.len w.moment w.faults w.notes.said };
}

impl Work {
    pub fn new(len: u64) -> Work
        ensures { result ≡ blank len }
    {
        Work {
            len,
            moment: 0,
            faults: 0,
            notes: Notes::new(),
        }
    }

    pub fn moment(&self) -> u64
        ensures { result ≡ self.now.moment }
    {
        self.moment
    }

    // Fails a call, whose moment is the last one.
    fn refuse(&mut self) -> Result<(), Failed>
        ensures takes { Takes [] self.old self.new result }
        ensures err { IsErr result }
    {
        self.moment = self.moment.saturating_add(1);
        self.faults = self.faults.saturating_add(1);
        Err(Failed)
    }

    // Makes a call that changes nothing. It fails only where the moment can not rise.
    pub fn pass(&mut self) -> Result<(), Failed>
        ensures takes { Takes [] self.old self.new result }
        ensures err { OnErr result (self.old.moment ≡ 2 ^ 64 - 1) }
    {
        if self.moment == u64::MAX {
            return self.refuse();
        }
        self.moment += 1;
        Ok(())
    }

    // Makes a call that changes the content. It fails only where the moment can not rise.
    pub fn take(&mut self, change: &Change<'_>) -> Result<(), Failed>
        ensures takes { Takes (step_of change.now ∷ []) self.old self.new result }
        ensures err { OnErr result (self.old.moment ≡ 2 ^ 64 - 1) }
    {
        if self.moment == u64::MAX {
            return self.refuse();
        }
        self.moment += 1;
        self.notes = self.notes.then(&(self.moment, change));
        Ok(())
    }
}
