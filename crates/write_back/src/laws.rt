// Laws of commits that wait and of their parts: each follows from the definitions alone.
ghost use Rattle.std.specs.Prelude.{List, ℕ, [], ◌∷◌, ◌++◌, ◌≡◌, ◌<◌, All, false, length, map};
ghost use Rattle.pcm_media.specs.Images.{Content, MayLeave, Touched, partly};
ghost use Rattle.array_shape.specs.Places.{data_len, logger_of, media_len};
ghost use Rattle.array_shape.specs.Logged.{applied, ranges_of};
ghost use Rattle.row_bytes.specs.declared.ballot.Ballot.{Ballot};
ghost use Rattle.array_image.specs.Image.{cell_of};
ghost use Rattle.array_image.specs.Standing.{SameCells, StandsFor};
ghost use Rattle.array_image.proofs.Frames.{AllWithin};
ghost use Rattle.commit_queue.specs.Queue.{Commit, Each, IsWritten, queue_parts};
ghost use Rattle.commit_queue.specs.Between.{AreFree};
ghost use Rattle.commit_queue.specs.Deferred.{deferred_orders};
ghost use Rattle.write_back.specs.declared.deferred.DeferredParts.{DeferredParts};
ghost use Rattle.write_back.specs.declared.entry.Entry.{Entry};
ghost use Rattle.write_back.specs.Entries.{AreHeld, IsEntry, parts_in, ranges_in};
ghost use Rattle.write_back.specs.Shown.{Sets, entries_of, shape_of};
ghost use Rattle.write_back.specs.Turns.{HaveCells, SameFor, group_parts, has_some, in_turn, parts_in_turn};
ghost use Rattle.write_back.specs.declared.queue.LateCommits.{LateCommits};
ghost use Rattle.write_back.specs.Waiting.{AreWaiting, IsFit, data_with, queue_of};

use crate::deferred::DeferredParts;
use array_shape::Shape;

/// The entries of numbers that no ballot of the queue has do not matter.
pub fn others_do_not_matter(shape: &Shape)
    ensures parts { (image : List ℕ) (old new : ℕ → List Entry) (queue : List Ballot) → SameFor shape.now queue old new → parts_in_turn shape.now image new queue ≡ parts_in_turn shape.now image old queue }
    ensures entries { (old new : ℕ → List Entry) (queue : List Ballot) → SameFor shape.now queue old new → in_turn shape.now new queue ≡ in_turn shape.now old queue }
{}

/// The newest commit's parts come after the old ones.
pub fn newest_comes_last(shape: &Shape)
    ensures { (image : List ℕ) (old new : ℕ → List Entry) (queue : List Ballot) (newest : Ballot) → SameFor shape.now queue old new
        → parts_in_turn shape.now image new (queue ++ newest ∷ []) ≡ parts_in_turn shape.now image old queue ++ group_parts shape.now image new newest.group }
{}

/// The oldest commit's parts are the first, and go with it.
pub fn oldest_goes_first(shape: &Shape)
    ensures { (image : List ℕ) (old new : ℕ → List Entry) (oldest : Ballot) (queue : List Ballot) → SameFor shape.now queue old new
        → parts_in_turn shape.now image old (oldest ∷ queue) ≡ group_parts shape.now image old oldest.group ++ parts_in_turn shape.now image new queue }
{}

/// The entries of a number that no ballot of the queue has come in or go: all others stay, and what the cells say of them.
pub fn one_number_changes()
    ensures same { (old new : DeferredParts) (t : ℕ) (es : List Entry) (queue : List Ballot) → Sets old new t es → has_some queue t ≡ false
        → SameFor (shape_of old) queue (entries_of old) (entries_of new) }
    ensures held { (old new : DeferredParts) (t : ℕ) (es : List Entry) (image : List ℕ) → Sets old new t es → ranges_of (parts_in (shape_of old) image t es) ≡ ranges_in es
        → AreHeld (shape_of old) image (entries_of old) → AreHeld (shape_of old) image (entries_of new) }
{}

/// All entries are of the array: each part lies in one page of the data, and its cell exists.
pub fn entries_are_of_the_array(parts: &DeferredParts)
    ensures { (t : ℕ) → All (IsEntry (shape_of parts.now)) (entries_of parts.now t) }
{}

/// Images with the same bytes in the entries' cells have the same parts.
pub fn same_cells_same_parts(shape: &Shape)
    ensures parts { (old new : List ℕ) (entries : ℕ → List Entry) (queue : List Ballot)
        → ((t : ℕ) → t < shape.now.numbers → All (λ e. cell_of shape.now new (logger_of shape.now e.addr) t e.cell ≡ cell_of shape.now old (logger_of shape.now e.addr) t e.cell) (entries t))
        → parts_in_turn shape.now new entries queue ≡ parts_in_turn shape.now old entries queue }
    ensures held { (old new : List ℕ) (entries : ℕ → List Entry)
        → ((t : ℕ) → t < shape.now.numbers → All (λ e. cell_of shape.now new (logger_of shape.now e.addr) t e.cell ≡ cell_of shape.now old (logger_of shape.now e.addr) t e.cell) (entries t))
        → AreHeld shape.now old entries → AreHeld shape.now new entries }
    ensures all { (old new : List ℕ) (entries : ℕ → List Entry) → SameCells shape.now old new → ((t : ℕ) → t < shape.now.numbers → All (IsEntry shape.now) (entries t))
        → (t : ℕ) → t < shape.now.numbers → All (λ e. cell_of shape.now new (logger_of shape.now e.addr) t e.cell ≡ cell_of shape.now old (logger_of shape.now e.addr) t e.cell) (entries t) }
{}

/// Entries that have just the cells of a queue of commits give the data that these commits give.
pub fn parts_are_the_queue(shape: &Shape)
    ensures { (image : List ℕ) (entries : ℕ → List Entry) (queue : List Commit) (bytes : List ℕ) → length image ≡ media_len shape.now → length bytes ≡ data_len shape.now
        → Each (IsWritten shape.now image) queue → Each (HaveCells shape.now entries) queue → AreHeld shape.now image entries → ((t : ℕ) → t < shape.now.numbers → All (IsEntry shape.now) (entries t))
        → applied (parts_in_turn shape.now image entries (map (λ c. c.ballot) queue)) bytes ≡ applied (queue_parts queue) bytes }
{}

/// Whatever is left stands for the data with the commits that wait.
pub fn waiting_stand(shape: &Shape)
    ensures { (late : LateCommits) (now : Content) (image : List ℕ) → AreWaiting shape.now late now → MayLeave now image → StandsFor shape.now image (data_with shape.now late now.bytes) }
{}

/// Writes into cells that no waiting commit names leave all as it was.
pub fn cells_keep_waiting(shape: &Shape)
    ensures during { (late : LateCommits) (ranges : List (ℕ × ℕ)) (old : Content) (image : List ℕ) → AreFree shape.now (queue_of shape.now old.bytes late) (λ g t. false) ranges → AllWithin (length old.bytes) ranges
        → AreWaiting shape.now late old → MayLeave (partly ranges old) image → StandsFor shape.now image (data_with shape.now late old.bytes) }
    ensures after { (late : LateCommits) (ranges : List (ℕ × ℕ)) (old new : Content) → AreFree shape.now (queue_of shape.now old.bytes late) (λ g t. false) ranges → AllWithin (length old.bytes) ranges
        → AreWaiting shape.now late old → Touched ranges old new → AreWaiting shape.now late new }
    ensures same { (late : LateCommits) (ranges : List (ℕ × ℕ)) (old new : Content) → AreFree shape.now (queue_of shape.now old.bytes late) (λ g t. false) ranges → AllWithin (length old.bytes) ranges
        → AreWaiting shape.now late old → Touched ranges old new → data_with shape.now late new.bytes ≡ data_with shape.now late old.bytes }
{}

/// They are as many as the different order numbers above 0 among the decided rows.
pub fn waiting_are_counted(shape: &Shape)
    ensures { (late : LateCommits) (now : Content) → IsFit shape.now late → AreWaiting shape.now late now → length (deferred_orders shape.now now.bytes) ≡ length late.ballots.items }
{}
