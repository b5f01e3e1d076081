// What a worker tells its gate.
ghost use Rattle.std.specs.Prelude.{◌≡◌, [], ◌∷◌, ◌++◌};
ghost use Rattle.mars_manager.specs.Pass.{told_of};
ghost use Rattle.caller_work.specs.Telling.{StandsAt};

use crate::gate::{Gate, Place};
use ghost_notes::Notes;
use mars_manager::Pass;

fn tell_and_note<G: Gate>(gate: &G, told: &mut Notes<Place>, place: Place)
    ensures notes { told.new.said ≡ told.old.said ++ place ∷ [] }
    ensures told { G.told gate.now place }
{
    gate.at(place);
    *told = told.then(&place);
}

/// Tells a gate where a worker stands, whatever its caller was told before.
pub fn tell<G: Gate>(gate: &G, told: &mut Notes<Place>, place: Place)
    requires { StandsAt place [] }
    ensures notes { told.new.said ≡ told.old.said ++ place ∷ [] }
    ensures told { G.told gate.now place }
{
    tell_and_note(gate, told, place);
}

/// Tells a gate where a worker stands, by what its caller was told last.
pub fn tell_granted<G: Gate, C>(gate: &G, told: &mut Notes<Place>, place: Place, _pass: &Pass<C>)
    requires { StandsAt place (told_of _pass.now.known) }
    ensures notes { told.new.said ≡ told.old.said ++ place ∷ [] }
    ensures told { G.told gate.now place }
{
    tell_and_note(gate, told, place);
}
