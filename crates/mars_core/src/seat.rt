// What a caller has.
ghost use Rattle.std.specs.Prelude.{◌≡◌};
ghost use Rattle.mars_core.specs.Seats.{seat_of};

use crate::live::Live;
use noted::{Keeper, LiveCalls};

/// A caller's seat. The calls of a live transaction are of the type `C`.
#[derive(Drop)]
pub enum Seat<C> {
    Free,
    Live(Live<C>),
    /// A live transaction that its caller has offered: it takes no more calls.
    Offered(Live<C>),
    /// A group has committed the transaction with this number, and its caller has not settled.
    Committed { at: u64 },
}

/// How a group ends: it is committed, or nobody knows whether it is, since the medium failed.
#[derive(Clone, Copy)]
pub enum Ending {
    Committed,
    Doubtful,
}

impl Ending {
    /// What it makes of the seat of one of the group, whose transaction has this number.
    pub fn seat<H: Keeper>(self, at: u64) -> Seat<LiveCalls<H>>
        ensures { result ≡ seat_of self at }
    {
        match self {
            Ending::Committed => Seat::Committed { at },
            Ending::Doubtful => Seat::Free,
        }
    }
}
