// The stripes that calls touch, as the bits of numbers.
ghost use Rattle.std.specs.Prelude.{◌≡◌, ◌^◌, ◌||◌, false, ℕ, List, length, unwrap_or, MatchBool, IsTrue, IsFalse};
ghost use Rattle.history.specs.Locks.{Touch, stripe_of, touches, clash};
ghost use Rattle.mars_core.specs.Masks.{AreMasksOf};
ghost use Rattle.mars_core.specs.TableCall.{number_for};

use history::{TableCall, stripe_of};

/// A bit for each stripe that is touched for reading, and for each that is touched for writing.
#[derive(Clone, Copy)]
pub struct Masks {
    pub reads: u64,
    pub writes: u64,
}

impl Masks {
    pub fn none() -> Masks
        ensures { AreMasksOf (λ stripe mode. false) result }
    {
        Masks {
            reads: 0,
            writes: 0,
        }
    }

    /// What a call touches that asks for the table with this number. A name that no table has counts as that of one table more. A scan
    /// touches all stripes.
    pub fn touched_by(table: u8, asked: &TableCall) -> Masks
        ensures { (names : List (List ℕ)) → unwrap_or (number_for names asked.now) (length names) ≡ table → AreMasksOf (touches names asked.now) result }
    {
        match asked {
            TableCall::Get { table: _, key } => Masks::reading(key_mask(table, *key)),
            TableCall::Scan {
                table: _,
                low: _,
                high: _,
            } => Masks::reading(u64::MAX),
            TableCall::Put {
                table: _,
                key,
                value: _,
            } => Masks::writing(key_mask(table, *key)),
            TableCall::Del { table: _, key } => Masks::writing(key_mask(table, *key)),
            TableCall::Save => Masks::none(),
            TableCall::Back { save: _ } => Masks::none(),
        }
    }

    #[inline]
    fn reading(reads: u64) -> Masks
        ensures { result ≡ record { reads = reads; writes = 0 } }
    {
        Masks { reads, writes: 0 }
    }

    #[inline]
    fn writing(writes: u64) -> Masks
        ensures { result ≡ record { reads = 0; writes = writes } }
    {
        Masks { reads: 0, writes }
    }

    /// What both touch.
    pub fn merged(self, more: Masks) -> Masks
        ensures { (one other : ℕ → Touch) → AreMasksOf one self → AreMasksOf other more → AreMasksOf (λ stripe mode. one stripe mode || other stripe mode) result }
    {
        Masks {
            reads: self.reads | more.reads,
            writes: self.writes | more.writes,
        }
    }

    /// Whether both touch some stripe, one of them for writing.
    pub fn clash(self, other: Masks) -> bool
        ensures { (one these : ℕ → Touch) → AreMasksOf one self → AreMasksOf these other
            → MatchBool result ((stripe : ℕ) × IsTrue (clash (one stripe) (these stripe))) ((stripe : ℕ) → IsFalse (clash (one stripe) (these stripe))) }
    {
        let written = self.writes & (other.reads | other.writes);
        let read = (self.reads | self.writes) & other.writes;
        written | read != 0
    }
}

// The bit of the stripe of a key of the table with this number.
fn key_mask(table: u8, key: u64) -> u64
    ensures { result ≡ 2 ^ stripe_of table key }
{
    1 << stripe_of(table, key)
}
