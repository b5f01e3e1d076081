// What a restore of a dump holds.
ghost use Rattle.std.specs.Prelude.{ℕ, ◌≡◌, List, Bool, Ok, Err};
ghost use Rattle.pcm_media.specs.Images.{MayLeave};
ghost use Rattle.pcm_media.specs.Replay.{at_rest};
ghost use Rattle.array_shape.specs.declared.shape.Shape.{Shape};
ghost use Rattle.eaw_device.specs.Made.{LeavesAsRead};
ghost use Rattle.eaw_device.specs.Opens.{Opens};
ghost use Rattle.history.specs.Rows.{NamedRows};
ghost use Rattle.record_table.specs.Does.{OpensNamed};
ghost use Rattle.command_words.specs.declared.restore_numbers.RestoreNumbers.{RestoreNumbers};
ghost use Rattle.array_runs.specs.Forms.{index_of_form};
ghost use Rattle.array_runs.specs.Records.{HoldsRecords};
ghost use Rattle.dump_text.specs.Dump.{IsDumpOf};
ghost use Rattle.dump_text.specs.declared.fault.DumpFault.{DumpFault};
ghost use Rattle.dump_text.specs.declared.fault.DumpFault.TheVariants as dump;
ghost use Rattle.restoring.specs.Restored.{IsRestored};
ghost use Rattle.restore_runs.specs.Making.{Makes};
ghost use Rattle.restore_runs.specs.declared.making.Made.{Made};
ghost use Rattle.restore_runs.specs.declared.stop.Stop.TheVariants as stop;
ghost use Rattle.restore_law.specs.Kept.{IsRestoredFrom, TellsWhole, records_held};

use crate::dumpable::records_may_be_dumped;
use btree_pages::BTreePages;
use dump_text::dumps_are_read;
use key_list::KeyList;
use pcm_media::Media;

/// What a restore of a dump holds, over a medium that tells its bytes. A run of `dump` that ended well has told the text whole. What
/// `make_image` makes of just that text is an array with just the records of the one that was dumped and with its tables, but for tables
/// without a record, which no dump tells (`made`). So is every array of the tables of that text, on whichever medium they were restored
/// (`restored`). The text is refused as no dump only where memory runs out (`taken`). Whatever a loss of power leaves of a medium that holds
/// such an image opens with these tables and records (`begins`): so runs begin on it as on what a format left, which has no record. And a
/// dump of it tells the same text (`alike`).
pub fn what_restores_hold<M: Media>()
    ensures made { (old new : M) (text : List ℕ) (cut : Bool) → TellsWhole (M.view old) (M.view new) cut text → (dumped : Shape) → HoldsRecords dumped (M.view old)
        → (asked : RestoreNumbers) (made : Made) → Makes asked text (Ok made)
        → (shape : Shape) × IsRestoredFrom dumped (M.view old) shape made.image.left × LeavesAsRead (at_rest made.image.left) }
    ensures restored { (old new : M) (text : List ℕ) (cut : Bool) → TellsWhole (M.view old) (M.view new) cut text → (dumped : Shape) → HoldsRecords dumped (M.view old)
        → (tables : List NamedRows) → IsDumpOf text tables → (shape : Shape) (image : List ℕ) → IsRestored shape tables image
        → IsRestoredFrom dumped (M.view old) shape image }
    ensures taken { (old new : M) (text : List ℕ) (cut : Bool) → TellsWhole (M.view old) (M.view new) cut text
        → (asked : RestoreNumbers) (fault : DumpFault) → Makes asked text (Err (stop.Dump fault)) → fault ≡ dump.NoMemory }
    ensures begins { (old media : M) (dumped shape : Shape) (from : IsRestoredFrom dumped (M.view old) shape (M.view media).content.bytes) → LeavesAsRead (M.view media).content
        → (image : List ℕ) → MayLeave (M.view media).content image → OpensNamed (Opens shape) (index_of_form 1) image from.names (records_held dumped (M.view old)) }
    ensures alike { (old new : M) (text : List ℕ) (cut : Bool) → TellsWhole (M.view old) (M.view new) cut text → (dumped : Shape) → HoldsRecords dumped (M.view old)
        → (media later : M) (shape : Shape) → IsRestoredFrom dumped (M.view old) shape (M.view media).content.bytes
        → (told : List ℕ) (short : Bool) → TellsWhole (M.view media) (M.view later) short told → told ≡ text }
{
    dumps_are_read();
    records_may_be_dumped::<KeyList>();
    records_may_be_dumped::<BTreePages>();
}
