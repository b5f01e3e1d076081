// What slots said that were read in a call.
use ghost_notes::Notes;
use record_slots::Slot;

/// What slots said that were read in a call: each with its key, the last one first. It exists only in proofs, and has no bytes. So a contract
/// can say of any store how an answer follows from what was read.
pub type Hearings = Notes<(u64, u32, Option<Slot>)>;
