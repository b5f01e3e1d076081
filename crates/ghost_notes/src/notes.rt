// A list that exists only in proofs.
ghost use Rattle.std.specs.Prelude.{◌≡◌, List, [], ◌∷◌, ◌++◌};
ghost use base.Fml.{ftrue};

use std::marker::{Model, PhantomData};

/// A list that exists only in proofs: at run time it has no bytes, and a step of it is no instruction. What is said in it a caller picks, in its
/// proof, from what it passes.
#[derive(Drop)]
pub struct Notes<T> {
    of: PhantomData<T>,
    pub ghost said: { List T },
}

impl<T> Model for Notes<T> {
    ghost also_owns = { λ _. ftrue };
}

// They own nothing, so they may go to another thread.
unsafe impl<T> Send for Notes<T> {}

impl<T> Notes<T> {
    pub fn new() -> Notes<T>
        ensures { result.said ≡ [] }
    {
        Notes::of(&())
    }

    /// All that its caller picks.
    #[inline(always)]
    pub fn of<A>(_from: &A) -> Notes<T>
        ghost all: { List T }
        ensures { result.said ≡ all }
    {
        Notes { of: PhantomData }
    }

    /// The same, and behind it one more that its caller picks.
    #[inline(always)]
    pub fn then<A>(&self, _from: &A) -> Notes<T>
        ghost more: { T }
        ensures { result.said ≡ self.now.said ++ more ∷ [] }
    {
        Notes::of(self)
    }
}
