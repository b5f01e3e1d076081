// The entries of commits that are written back go.
ghost use Rattle.std.specs.Prelude.{◌≡◌, ◌^◌, ◌≤◌, ◌<◌, ℕ, [], true, false, length, take};
ghost use Rattle.array_shape.specs.NumberSet.{has};
ghost use Rattle.write_back.specs.Shown.{HasPlaces, entries_of, shape_of};
ghost use Rattle.write_back.specs.Tied.{Forgets};

use crate::deferred::DeferredParts;
use array_shape::{NumberSet, Shape};
use row_bytes::Ballot;

/// The entries of the numbers of the first `count` ballots go.
pub(crate) fn forget_first(
    parts: &mut DeferredParts,
    shape: &Shape,
    ballots: &[Ballot],
    count: usize,
)
    requires shape { shape_of parts.old ≡ shape.now }
    requires places { 0 < count → HasPlaces parts.old }
    requires count { count ≤ length ballots.now }
    ensures shape { shape_of parts.new ≡ shape.now }
    ensures places { HasPlaces parts.old → HasPlaces parts.new }
    ensures forgets { Forgets shape.now (take count ballots.now) (entries_of parts.old) (entries_of parts.new) }
{
    for at in 0..count {
        let ballot = &ballots[at];
        forget_group(parts, shape, ballot.group);
    }
}

// Those of the numbers of a group go.
fn forget_group(parts: &mut DeferredParts, shape: &Shape, group: u64)
    requires shape { shape_of parts.old ≡ shape.now }
    requires places { HasPlaces parts.old }
    ensures shape { shape_of parts.new ≡ shape.now }
    ensures places { HasPlaces parts.new }
    ensures gone { (t : ℕ) → t < shape.now.numbers → has group t ≡ true → entries_of parts.new t ≡ [] }
    ensures others { (t : ℕ) → t < shape.now.numbers → has group t ≡ false → entries_of parts.new t ≡ entries_of parts.old t }
{
    let numbers = NumberSet { bits: group };
    for tid in 0..shape.numbers {
        if !numbers.contains(tid) {
            continue;
        }
        parts.forget(tid);
    }
}
