// The trait of responders over a store that may mirror.
ghost use Rattle.std.specs.Prelude.{◌≡◌, [], false, List, ℕ, IsTrue, slice_index_or};
ghost use Rattle.eaw_face.specs.StoreView.{StoreView};
ghost use Rattle.eaw_face.specs.Mirroring.{Mirrors, GivesUp};
ghost use Rattle.frame_lines.specs.Framed.{StandsOn};

use script_run::Responder;

/// Answers lines over a store, and passes on the frames that the store sends.
pub trait Mirrored: Responder {
    /// What the store shows.
    ghost view: { Self → StoreView };

    /// The oldest frame that was sent and is not yet given up. It is empty if there is none.
    fn first_frame(&self) -> &[u8]
        ensures { IsTrue (view self.now).sending.told → result.now ≡ slice_index_or (view self.now).sending.frames 0 [] };

    /// Gives that frame up. If there is none, it does nothing.
    fn drop_frame(&mut self)
        ensures gives_up { GivesUp (view self.old) (view self.new) }
        ensures stands { StandsOn Self.tells Self.is_ready Self.stands Self.comes Self.faults self.old self.new };

    /// Whether the sending has ended.
    fn link_down(&self) -> bool
        ensures { result ≡ (view self.now).sending.is_down };

    /// What a line sends is what the store says.
    ghost mirrors: { (old new : Self) → Self.sends old new → Mirrors Self.tells (view old) (view new) };

    /// If it can answer a further line, the store is not dead.
    ghost alive: { (self : Self) → Self.is_ready self → (view self).is_dead ≡ false };

    /// The state says the committed data, if it can answer a further line.
    ghost data_of: { (self : Self) (state : Self.State) → IsTrue Self.tells → Self.is_ready self → Self.stands self state → Self.holds state (view self).state.bytes };
}
