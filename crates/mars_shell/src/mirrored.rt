// The lines of callers over a store that mirrors.
use crate::responder::LineCore;
use eaw_face::EawStore;
use frame_lines::Mirrored;
use mars_core::Core;
use noted::Keeper;
use page_store::KeyIndex;
use script_run::{Responder, Stop};

/// Answers the lines of callers by a core of which the data shows, at each line, the state that the turns have led to.
pub struct ShownLines<S: EawStore, I: KeyIndex, H: Keeper> {
    pub lines: LineCore<Core<S, I, H>>,
}

impl<S: EawStore, I: KeyIndex, H: Keeper> Responder for ShownLines<S, I, H> {
    ghost use Rattle.std.specs.Prelude.{◌≡◌, ◌⊎◌, IsTrue};
    ghost use Rattle.eaw_face.specs.Mirroring.{Mirrors};
    ghost use Rattle.mars_core.specs.Held.{core_of};
    ghost use Rattle.mars_shell.specs.Standing.{Progress, HasShown, line_script, IsReady, IsShown, Stands, Comes};
    ghost use Rattle.mars_shell.specs.Coming.{comes_to_itself, comes_further};

    ghost tells = { S.tells };

    ghost State = { Progress };

    ghost script = { line_script };

    ghost is_ready = { λ shown. IsReady shown.lines.callers (core_of S.opens I.index (S.view shown.lines.core.records.store) shown.lines.core) };

    ghost stands = { λ shown progress. Stands (core_of S.opens I.index (S.view shown.lines.core.records.store) shown.lines.core) progress
        × IsShown (core_of S.opens I.index (S.view shown.lines.core.records.store) shown.lines.core) };

    ghost comes = { λ old before new. Comes (core_of S.opens I.index (S.view old.lines.core.records.store) old.lines.core) before
        (core_of S.opens I.index (S.view new.lines.core.records.store) new.lines.core) };

    ghost faults = { λ shown. (S.view shown.lines.core.records.store).faults };

    ghost holds = { HasShown I.index };

    ghost sends = { λ old new. (new.lines.core ≡ old.lines.core) ⊎ Mirrors S.tells (S.view old.lines.core.records.store) (S.view new.lines.core.records.store) };

    ghost comes_none = { λ shown progress told ready stands. comes_to_itself (core_of S.opens I.index (S.view shown.lines.core.records.store) shown.lines.core) progress stands.0 };

    ghost comes_on = { λ first mid last s t u told ready stands before behind.
        comes_further (core_of S.opens I.index (S.view first.lines.core.records.store) first.lines.core) (core_of S.opens I.index (S.view mid.lines.core.records.store) mid.lines.core)
        (core_of S.opens I.index (S.view last.lines.core.records.store) last.lines.core) s t u before behind };

    fn answer(&mut self, line: &[u8], n: u64, out: &mut Vec<u8>) -> Result<(), Stop> {
        self.lines.answer(line, n, out)
    }
}

impl<S: EawStore, I: KeyIndex, H: Keeper> Mirrored for ShownLines<S, I, H> {
    ghost use Rattle.std.proofs.Common.{⊎_elim, refl, sym, subst};
    ghost use Rattle.eaw_face.specs.Mirroring.{Mirrors};
    ghost use Rattle.mars_core.proofs.GivingUp.{sends_none};
    ghost use Rattle.mars_shell.specs.Coming.{has_all};

    ghost view = { λ shown. S.view shown.lines.core.records.store };

    ghost mirrors = { λ old new sends. ⊎_elim (λ same. subst (λ core. Mirrors S.tells (S.view old.lines.core.records.store) (S.view core.records.store)) (sym same)
        (sends_none S.tells (S.view old.lines.core.records.store))) (λ sent. sent) sends };

    ghost alive = { λ shown ready. ready.alive };

    ghost data_of = { λ shown progress told ready stands. record {
      runs = stands.0.runs;
      all = has_all I.index (S.view shown.lines.core.records.store).state.bytes _ progress.state stands.0.state_is refl (stands.1 ready.alive);
    } };

    fn first_frame(&self) -> &[u8] {
        self.lines.core.first_frame()
    }

    fn drop_frame(&mut self) {
        self.lines.core.drop_frame();
    }

    fn link_down(&self) -> bool {
        self.lines.core.link_down()
    }
}
