// What frames are sent over.
ghost use Rattle.std.specs.Prelude.{◌≡◌, [], ◌∷◌, ◌++◌, Bool, List, ℕ, drop, slice_index_or, IsTrue, OnOk, OnErr};
ghost use Rattle.mars_base.specs.Causes.{HasCause};

use mars_base::Failed;

/// What frames are sent over. It keeps each frame from its send on until it is given up.
pub trait Link {
    /// Whether contracts speak of its frames. Each clause on frames has this as a premise.
    ghost tells: { Bool };

    /// The frames that were sent and are not yet given up, the oldest first.
    ghost frames: { Self → List (List ℕ) };

    /// How often a send has failed.
    ghost faults: { Self → ℕ };

    /// Sends a frame.
    fn send(&mut self, frame: &[u8]) -> Result<(), Failed>
        ensures sent { IsTrue tells → OnOk result (frames self.new ≡ frames self.old ++ frame.now ∷ []) }
        ensures unsent { IsTrue tells → OnErr result (frames self.new ≡ frames self.old) }
        ensures cause { HasCause (faults self.old) (faults self.new) result };

    /// The oldest frame that was sent and is not yet given up. It is empty if there is none.
    fn first_frame(&self) -> &[u8]
        ensures { IsTrue tells → result.now ≡ slice_index_or (frames self.now) 0 [] };

    /// Gives that frame up. If there is none, it does nothing.
    fn drop_frame(&mut self)
        ensures frames { IsTrue tells → frames self.new ≡ drop 1 (frames self.old) }
        ensures faults { faults self.new ≡ faults self.old };
}
