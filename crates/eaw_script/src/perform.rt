// Does a command of a script.
ghost use Rattle.std.specs.Prelude.{ℕ, ◌≡◌, ◌<◌, false, List};
ghost use Rattle.script_text.specs.Eaw.{Raw, IsTextOf};
ghost use Rattle.script_text.specs.EawLines.{ShowsCall};
ghost use Rattle.eaw_script.specs.Performed.{Performed};

use crate::buffers::Buffers;
use crate::ends::{abort, commit, nested, partial};
use crate::reads::{held, log_len, read, read_log};
use crate::writes::{atomic, edit_log, log_write};
use eaw_face::EawStore;
use mars_base::Failed;
use script_text::{Answer, EawCall, bytes_of};

/// Does a number's command if it passes each test. The bytes that it writes or reads are in the buffers.
pub fn perform<'a, S: EawStore>(
    store: &mut S,
    number: u8,
    call: &EawCall<'_>,
    buffers: &'a mut Buffers,
) -> Result<Answer<'a>, Failed>
    requires number { number < (S.view store.old).shape.numbers }
    requires alive { (S.view store.old).is_dead ≡ false }
    requires said { (raw : Raw) × (text : List ℕ) × ShowsCall number call.now raw × IsTextOf number raw text }
    ensures { (raw : Raw) (text : List ℕ) → ShowsCall number call.now raw → IsTextOf number raw text
        → Performed S.tells (S.opens (S.view store.old).shape) (S.view store.old) (S.view store.new) number raw result }
{
    match call {
        EawCall::LogWrite { addr, hex } => {
            log_write(store, number, *addr, bytes_of(hex, &mut buffers.block))
        }
        EawCall::Commit => commit(store, number),
        EawCall::Abort => abort(store, number),
        EawCall::Nested { offset } => nested(store, number, *offset),
        EawCall::Partial { offset } => partial(store, number, *offset),
        EawCall::Atomic { addr, hex } => {
            atomic(store, number, *addr, bytes_of(hex, &mut buffers.block))
        }
        EawCall::EditLog { pos, at, hex } => {
            edit_log(store, number, *pos, *at, bytes_of(hex, &mut buffers.block))
        }
        EawCall::ReadLog { pos } => read_log(store, number, *pos, &mut buffers.part),
        EawCall::Read { addr, len } => read(store, number, *addr, *len, &mut buffers.block),
        EawCall::LogLen => Ok(log_len(store, number)),
        EawCall::Held { logger } => Ok(held(store, number, *logger)),
    }
}
