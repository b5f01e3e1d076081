// What answers the lines of raw commands.
use crate::buffers::Buffers;
use crate::perform::perform;
use eaw_face::EawStore;
use frame_lines::Mirrored;
use script_run::{Responder, Stop};
use script_text::{EawLine, read_eaw, write_answer, write_bad_line};

/// A store that answers raw commands.
#[derive(Drop)]
pub struct Commands<S> {
    pub store: S,
}

impl<S: EawStore> Responder for Commands<S> {
    ghost use Rattle.std.specs.Prelude.{◌≡◌, false};
    ghost use Rattle.eaw_script.specs.Lines.{raw_script};
    ghost use Rattle.eaw_script.specs.Progress.{Progress, Shows, Comes};
    ghost use Rattle.eaw_script.specs.Laws.{comes_none, comes_on};
    ghost use Rattle.eaw_face.specs.Mirroring.{Mirrors};
    ghost use Rattle.eaw_script.specs.Mirrored.{HasData};

    ghost tells = { S.tells };

    ghost State = { Progress };

    ghost script = { raw_script };

    ghost is_ready = { λ commands. (S.view commands.store).is_dead ≡ false };

    ghost stands = { λ commands. Shows (S.view commands.store) };

    ghost comes = { λ old before new after. Comes S.opens (S.view old.store) before (S.view new.store) after };

    ghost faults = { λ commands. (S.view commands.store).faults };

    ghost holds = { HasData };

    ghost sends = { λ old new. Mirrors S.tells (S.view old.store) (S.view new.store) };

    ghost comes_none = { λ commands progress told alive shows. comes_none S.opens (S.view commands.store) progress shows (λ image. S.only_now commands.store image told alive) };

    ghost comes_on = { λ first mid last s t u told alive shows. comes_on S.opens (S.view first.store) (S.view mid.store) (S.view last.store) s t u };

    fn answer(&mut self, line: &[u8], n: u64, out: &mut Vec<u8>) -> Result<(), Stop> {
        out.clear();
        match read_eaw(line, self.store.shape().numbers) {
            EawLine::Nothing => Ok(()),
            EawLine::Bad => match write_bad_line(out, n) {
                Ok(()) => Ok(()),
                Err(_) => Err(Stop::NoMemory),
            },
            EawLine::Told { number, call } => {
                let mut buffers = Buffers::new();
                match perform(&mut self.store, number, &call, &mut buffers) {
                    Ok(answer) => match write_answer(out, number, &answer) {
                        Ok(()) => Ok(()),
                        Err(_) => Err(Stop::NoMemory),
                    },
                    Err(_) => Err(Stop::Media { number }),
                }
            }
        }
    }
}

impl<S: EawStore> Mirrored for Commands<S> {
    ghost use Rattle.std.proofs.Common.{ap};
    ghost use Rattle.eaw_face.specs.State.{State};

    ghost view = { λ commands. S.view commands.store };

    ghost mirrors = { λ old new sends. sends };

    ghost alive = { λ commands ready. ready };

    ghost data_of = { λ commands progress told ready shows. ap (λ (s : State). s.bytes) shows.state };

    fn first_frame(&self) -> &[u8] {
        self.store.first_frame()
    }

    fn drop_frame(&mut self) {
        self.store.drop_frame();
    }

    fn link_down(&self) -> bool {
        self.store.link_down()
    }
}
