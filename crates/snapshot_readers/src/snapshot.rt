// What readers take, and the rule of it.
ghost use Rattle.std.specs.Prelude.{◌≡◌};

use crate::prefix::{Law, Prefix};
use crate::records::{Records, Write};
use atomic_table::{Join, Split};
use crossbeam_utils::rule::{Outcome, Protocol};
use history::History;
use left_right::Absorb;
use logbook::Seen;
use mars_base::Listed;
use std::alloc::AllocError;

/// The records after some first batches of the list, these batches, and how many lists were published up to this one.
#[derive(Drop)]
pub struct Snapshot {
    pub(crate) records: Records,
    pub(crate) list: Prefix,
    pub(crate) count: u64,
}

/// What the feed does to a copy: it makes all writes of a batch, or it tells the list that the copy now stands for, and how many that makes.
#[derive(Drop)]
pub enum Change {
    Write(Vec<Write>),
    Tell(Prefix, u64),
}

impl Absorb<Change> for Snapshot {
    type State = Snapshot;

    ghost use Rattle.snapshot_readers.specs.Shown.{changed};

    ghost state = { λ s. s };

    ghost applied = { changed };

    fn absorb_first(&mut self, change: &Change, _other: &Snapshot) -> Result<(), AllocError> {
        match change {
            Change::Write(writes) => match self.records.write_all(writes) {
                Ok(()) => Ok(()),
                Err(_) => Err(AllocError),
            },
            Change::Tell(list, count) => {
                self.list = list.again();
                self.count = *count;
                Ok(())
            }
        }
    }
}

/// What a seat knows: the book of the list, the records at its start, and the lists that were published. No value of it is made.
pub struct Known {
    pub seen: Seen<History, u64, Law>,
    pub base: Records,
    pub lists: Listed<Listed<History>>,
}

/// What is published is of the list that each seat knows, its records are those after its list, and its list is the last one published.
pub struct Standing;

impl Protocol<Snapshot, Option<Known>> for Standing {
    ghost use Rattle.std.specs.Prelude.{None};
    ghost use Rattle.snapshot_readers.specs.Shown.{AllStand};

    ghost holds = { AllStand };

    ghost first = { None };
}

// A reader sees what the rule says.
pub(crate) struct Sees;

impl Outcome<Snapshot, Option<Known>> for Sees {
    ghost use Rattle.snapshot_readers.specs.Shown.{IsSeen};

    ghost then = { λ v x y w. IsSeen v x w };
}

// The writer shows more.
pub(crate) struct Shows;

impl Outcome<Snapshot, Option<Known>> for Shows {
    ghost use Rattle.snapshot_readers.specs.Shown.{IsTold};

    ghost then = { λ v x y w. IsTold v y w };
}

// The writer comes to know what it shows.
pub(crate) struct Claims;

impl Outcome<Snapshot, Option<Known>> for Claims {
    ghost use Rattle.std.specs.Prelude.{◌≡◌, Some};
    ghost use Rattle.snapshot_readers.specs.Shown.{known_of};

    ghost then = { λ v x y w. w ≡ Some (known_of y) };
}

pub(crate) struct Both;

impl Split<Option<Known>> for Both {
    ghost left = { λ v. v };

    ghost right = { λ v. v };
}

pub(crate) struct Takes;

impl Join<Option<Known>> for Takes {
    ghost use Rattle.std.specs.Prelude.{None};

    ghost both = { λ v w. w };

    ghost spent = { None };
}
