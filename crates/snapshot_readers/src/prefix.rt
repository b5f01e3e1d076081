// Prefixes of the one list of batches that a feed was given.
ghost use Rattle.std.specs.Prelude.{◌≡◌, ◌+◌, ◌<◌, ◌++◌, ◌∷◌, [], length, IfSome, MatchBool};
ghost use mathlib.Core.List.{IsPrefix};
ghost use Rattle.snapshot_readers.specs.Book.{word_of};
ghost use Rattle.history.specs.Legal.{AreNumberedFrom};
ghost use Rattle.snapshot_readers.specs.Batches.{joined, with_batch};

use history::{Done, History};
use logbook::{Gain, Offer, Plain, Play, Rule, Seen, Start, Word};
use std::sync::Wait;

/// The rule of the book in which the list is kept: its first word is the length of the list.
pub struct Law;

impl Rule<History, u64> for Law {
    ghost use Rattle.std.specs.Prelude.{[]};
    ghost use base.Fml.{ftrue};
    ghost use Rattle.snapshot_readers.specs.Book.{IsKept};

    ghost holds = { λ cells list. IsKept cells list };

    ghost first = { [] };

    ghost hinted = { λ n list. Unit {0} };

    ghost shows = { λ list. [] };

    ghost keeps = { λ names list. ftrue };

    ghost moves = { λ ask before after answer. Unit {0} };
}

// Callers trade nothing.
struct Nothing;

impl Gain<History, u64> for Nothing {
    ghost use base.Fml.{ftrue};

    ghost after = { λ names about answer. ftrue };
}

// A step that adds a batch.
struct Add;

impl Play<History, u64> for Add {
    ghost use Rattle.snapshot_readers.specs.Book.{Adds};

    ghost then = { Adds };
}

impl Plain<&[Done], History, u64> for Add {
    ghost use Rattle.std.specs.Prelude.{None};

    ghost ask = { λ dones. dones.now };

    ghost state = { λ dones. None };
}

/// The word that is the length of the list.
pub type LengthWord = Word<History, u64, Law>;

/// The first batches of the list, which have `count` transactions. The list itself is in no memory: proofs know it.
#[derive(Drop)]
pub struct Prefix {
    batches: u64,
    pub(crate) count: u64,
    pub(crate) seen: Seen<History, u64, Law>,
    pub ghost as_many: { batches ≡ length seen.log },
    pub ghost counted: { count ≡ length (joined seen.log) },
}

impl Prefix {
    /// A new list, which is empty.
    pub(crate) fn open() -> (LengthWord, Prefix)
        ensures { (result.0 ≡ word_of result.1.seen.book) × (result.1.seen.log ≡ []) }
    {
        let (seen, mut first, _second) = Seen::open(Start::alone(), 0, 0);
        let list = Prefix {
            batches: 0,
            count: 0,
            seen,
        };
        (Word::tracked(0, &mut first), list)
    }

    pub(crate) fn again(&self) -> Prefix
        ensures { result ≡ self.now }
    {
        Prefix {
            batches: self.batches,
            count: self.count,
            seen: self.seen.again(),
        }
    }

    /// The longer of two prefixes of one list, of which the other is a prefix.
    pub(crate) fn longer(&self, other: &Prefix) -> Prefix
        requires { other.now.seen.book ≡ self.now.seen.book }
        ensures book { result.seen.book ≡ self.now.seen.book }
        ensures this { IsPrefix self.now.seen.log result.seen.log }
        ensures that { IsPrefix other.now.seen.log result.seen.log }
    {
        let mut both = self.seen.again();
        both.learn(&other.seen);
        if self.batches < other.batches {
            other.again()
        } else {
            self.again()
        }
    }

    /// Whether the other is no longer, and so a prefix of this one.
    pub(crate) fn goes_on(&self, other: &Prefix) -> bool
        requires { other.now.seen.book ≡ self.now.seen.book }
        ensures { MatchBool result (IsPrefix other.now.seen.log self.now.seen.log) (IsPrefix self.now.seen.log other.now.seen.log) }
    {
        let mut both = self.seen.again();
        both.learn(&other.seen);
        other.batches <= self.batches
    }

    // The list with one batch more, or none where it has grown already, or has as many batches as a u64 counts.
    fn added(&self, word: &LengthWord, dones: &[Done]) -> Option<Prefix>
        requires word { word.now ≡ word_of self.now.seen.book }
        requires next { AreNumberedFrom (length (joined self.now.seen.log) + 1) dones.now }
        requires some { 0 < length dones.now }
        ensures { IfSome result (λ list. (list.seen.book ≡ self.now.seen.book) × (list.seen.log ≡ self.now.seen.log ++ dones.now ∷ [])) }
    {
        let count = dones[dones.len() - 1].at;
        let more = self.batches.checked_add(1)?;
        let mut seen = self.seen.again();
        let mut offer: Offer<History, u64, Law, Nothing> = seen.plain::<Nothing, &[Done], Add>(
            &dones,
        );
        let mut pen = seen.no_pen();
        let batches = self.batches;
        let found = word.compare_exchange::<Add, Nothing>(
            batches, more, &mut seen, &mut offer, &mut pen,
        );
        if found != batches {
            return None;
        }
        Some(Prefix {
            batches: more,
            count,
            seen,
        })
    }

    /// The list with these transactions as one batch more, if there are some. Only the feed adds to it, so it does not wait.
    pub(crate) fn after<R: Wait>(&self, rt: &R, word: &LengthWord, dones: &[Done]) -> Prefix
        requires word { word.now ≡ word_of self.now.seen.book }
        requires next { AreNumberedFrom (length (joined self.now.seen.log) + 1) dones.now }
        ensures book { result.seen.book ≡ self.now.seen.book }
        ensures log { result.seen.log ≡ with_batch self.now.seen.log dones.now }
    {
        if dones.is_empty() {
            return self.again();
        }
        for _ in rt.forever() {
            if let Some(list) = self.added(word, dones) {
                return list;
            }
        }
        unreachable!()
    }

    /// That the other is a prefix of this one. What the feed has published goes on from all that any reader saw, so it does not wait.
    pub(crate) fn reaches<R: Wait>(&self, rt: &R, other: &Prefix)
        requires { other.now.seen.book ≡ self.now.seen.book }
        ensures { IsPrefix other.now.seen.log self.now.seen.log }
    {
        for _ in rt.forever() {
            if self.goes_on(other) {
                return;
            }
        }
    }
}
