// The key of a record in an array, and the order of keys.
ghost use Rattle.std.specs.Prelude.{◌≡◌};
ghost use Rattle.history.specs.Key.{main_name};

use record_slots::Name;
use std::cmp::Ordering;

/// The name of a table, and a number.
#[derive(Clone, Copy, Debug)]
pub struct Key {
    pub table: Name,
    pub key: u64,
}

impl PartialEq for Key {
    ghost use Rattle.std.specs.Prelude.{nat_eq, ◌&&◌};
    ghost use lib.Pointwise.{pointwise};
    ghost use Rattle.std.specs.Cmp.{partial_equiv_from_equiv};
    ghost use Rattle.std.proofs.lemmas.Cmp.{and_equiv, on_equiv, nat_eq_equiv, nat_list_eq_equiv};

    ghost eq = { λ one other. pointwise nat_eq one.table other.table && nat_eq one.key other.key };

    ghost laws = { partial_equiv_from_equiv (and_equiv (on_equiv (λ key. key.table) nat_list_eq_equiv) (on_equiv (λ key. key.key) nat_eq_equiv)) };

    fn eq(&self, other: &Key) -> bool {
        self.table.as_bytes() == other.table.as_bytes() && self.key == other.key
    }
}

impl Eq for Key {
    ghost use Rattle.std.proofs.lemmas.Cmp.{and_equiv, on_equiv, nat_eq_equiv, nat_list_eq_equiv};

    ghost laws = { and_equiv (on_equiv (λ key. key.table) nat_list_eq_equiv) (on_equiv (λ key. key.key) nat_eq_equiv) };
}

impl Ord for Key {
    ghost use Rattle.std.specs.Prelude.{nat_eq};
    ghost use Rattle.std.specs.Ordering.{nat_cmp, on, then_cmp};
    ghost use Rattle.std.specs.Cmp.{on_total, then_total, nat_cmp_total, both_tied, unsigned_ties};
    ghost use Rattle.std.specs.Cmp.Lexicographic.{slice_cmp, nat_list_cmp_total, texts_ties};
    ghost use Rattle.std.proofs.Common.{rules};
    ghost use Rattle.std.specs.Cmp.Rules.{comparing};
    ghost use lib.Pointwise.{pointwise};

    ghost cmp = { then_cmp (on (λ key. key.table) (slice_cmp nat_cmp)) (on (λ key. key.key) nat_cmp) };

    ghost total = { then_total (on_total (λ key. key.table) nat_list_cmp_total) (on_total (λ key. key.key) nat_cmp_total) };

    ghost matches_partial_cmp = { Prim.search (comparing, rules) };

    ghost matches_eq = { λ one other. both_tied (pointwise nat_eq one.table other.table) (nat_eq one.key other.key) (slice_cmp nat_cmp one.table other.table) (nat_cmp one.key other.key)
        (texts_ties one.table other.table) (unsigned_ties one.key other.key) };

    fn cmp(&self, other: &Key) -> Ordering {
        let tables = self.table.as_bytes().cmp(other.table.as_bytes());
        tables.then(self.key.cmp(&other.key))
    }
}

impl PartialOrd for Key {
    ghost use Rattle.std.specs.Prelude.{nat_eq};
    ghost use Rattle.std.specs.Ordering.{nat_cmp, on, then_cmp, as_partial_cmp};
    ghost use Rattle.std.specs.Cmp.{on_total, then_total, nat_cmp_total, both_tied, unsigned_ties, partial_order_from_total, partial_order_from_own_ties};
    ghost use Rattle.std.specs.Cmp.Lexicographic.{slice_cmp, nat_list_cmp_total, texts_ties};
    ghost use lib.Pointwise.{pointwise};

    ghost partial_cmp = { as_partial_cmp (then_cmp (on (λ key. key.table) (slice_cmp nat_cmp)) (on (λ key. key.key) nat_cmp)) };

    ghost laws = { partial_order_from_own_ties (partial_order_from_total (then_total (on_total (λ key. key.table) nat_list_cmp_total) (on_total (λ key. key.key) nat_cmp_total)))
        (λ one other. both_tied (pointwise nat_eq one.table other.table) (nat_eq one.key other.key) (slice_cmp nat_cmp one.table other.table) (nat_cmp one.key other.key)
        (texts_ties one.table other.table) (unsigned_ties one.key other.key)) };

    fn partial_cmp(&self, other: &Key) -> Option<Ordering> {
        Some(self.cmp(other))
    }
}

/// The name of the table that each array has.
pub fn main_table() -> Name
    ensures { result ≡ main_name }
{
    let Some(name) = Name::of(b"main") else {
        unreachable!();
    };
    name
}
