// Laws of queues: each follows from the definitions alone.
ghost use Rattle.std.specs.Prelude.{Bool, List, ℕ, [], ◌∷◌, ◌++◌, ◌≡◌, ◌<◌, ◌≤◌, ◌+◌, true, false, length};
ghost use Rattle.pcm_media.specs.Images.{Content, MayLeave, SameOutside, Touched, partly};
ghost use Rattle.array_shape.specs.Places.{cell_at, data_len, media_len};
ghost use Rattle.array_shape.specs.Logged.{Part, AllPlaced, applied, parts_at, places_of};
ghost use Rattle.array_image.specs.Image.{data_of, row_of};
ghost use Rattle.array_image.specs.Joined.{joined};
ghost use Rattle.array_image.proofs.Frames.{AllWithin};
ghost use Rattle.array_image.specs.Standing.{AllSettled, IsRecovering, IsEither, StandsFor};
ghost use Rattle.row_bytes.specs.Ballots.{has_row};
ghost use Rattle.array_image.specs.Decided.{decided, orders};
ghost use Rattle.array_image.specs.Votes.{votes_of};
ghost use Rattle.commit_queue.specs.Between.{AreFree, AreUnvoted, bodies_of, Holds, IsAtRest, IsHeld, IsJoining, IsLeaving, IsQuiet, Rests};
ghost use Rattle.commit_queue.specs.Deferred.{deferred_orders};
ghost use Rattle.commit_queue.specs.Queue.{AreAlike, Commit, Each, IsQueued, IsVoted, IsWritten, NamesCell, Rise, carried_parts, named_at, queue_parts, some_has};

use array_shape::Shape;

/// Whichever votes of a queue of commits are left, the image is lawful, and stands for the data with those commits in their order of
/// which every vote is left.
pub fn queue_stands(shape: &Shape)
    ensures { (queue : List Commit) (bytes image : List ℕ) → IsQueued shape.now queue bytes image → StandsFor shape.now image (applied (carried_parts shape.now image queue) bytes) }
{}

/// Torn votes of the newest commit: it counts whole or not at all.
pub fn newest_counts_all_or_none(shape: &Shape)
    ensures { (queue : List Commit) (c : Commit) (bytes old image : List ℕ) → IsQueued shape.now (queue ++ c ∷ []) bytes old → Each (IsVoted shape.now old) queue
        → SameOutside (votes_of shape.now (has_row c.ballot)) old image → (let before = applied (queue_parts queue) bytes in IsEither shape.now before (applied c.parts before) image) }
{}

/// Parts of the oldest commit that are written into the data, torn or whole, change nothing.
pub fn oldest_parts_change_nothing(shape: &Shape)
    ensures { (queue : List Commit) (c : Commit) (bytes old image : List ℕ) → IsQueued shape.now (c ∷ queue) bytes old → Each (IsVoted shape.now old) (c ∷ queue)
        → SameOutside (places_of shape.now c.parts) old image → StandsFor shape.now image (applied (queue_parts (c ∷ queue)) bytes) }
{}

/// Torn votes of the oldest commit change nothing once its parts are in the data.
pub fn oldest_votes_change_nothing(shape: &Shape)
    ensures { (queue : List Commit) (c : Commit) (bytes old image : List ℕ) → IsQueued shape.now (c ∷ queue) bytes old → Each (IsVoted shape.now old) queue → applied c.parts bytes ≡ bytes
        → SameOutside (votes_of shape.now (has_row c.ballot)) old image → StandsFor shape.now image (applied (queue_parts queue) bytes) }
{}

/// Between two calls: whatever is left stands for the data with all commits of the queue.
pub fn held_stands(shape: &Shape)
    ensures { (queue : List Commit) (bytes image : List ℕ) → Holds shape.now queue bytes image → StandsFor shape.now image (applied (queue_parts queue) bytes) }
{}

/// Writes into cells that no commit of the queue names, and into rows that are not voted but for their votes, keep the queue at every
/// moment.
pub fn free_writes_keep_the_queue(shape: &Shape)
    ensures during { (queue : List Commit) (bytes : List ℕ) (test : ℕ → ℕ → Bool) (ranges : List (ℕ × ℕ)) (old : Content) (image : List ℕ) → AreFree shape.now queue test ranges → AllWithin (length old.bytes) ranges
        → IsHeld shape.now queue bytes old → AreUnvoted shape.now test old → MayLeave (partly ranges old) image → Holds shape.now queue bytes image }
    ensures after { (queue : List Commit) (bytes : List ℕ) (test : ℕ → ℕ → Bool) (ranges : List (ℕ × ℕ)) (old new : Content) → AreFree shape.now queue test ranges → AllWithin (length old.bytes) ranges
        → IsHeld shape.now queue bytes old → AreUnvoted shape.now test old → Touched ranges old new → IsHeld shape.now queue bytes new }
    ensures cells { (queue : List Commit) (g t e from n : ℕ) → g < shape.now.loggers → t < shape.now.numbers → e < shape.now.entries → Each (λ c. NamesCell c g t e → ⊥) queue → from + n ≤ 528
        → AreFree shape.now queue (λ h u. false) ((cell_at shape.now g t e + from, n) ∷ []) }
    ensures rows { (queue : List Commit) (test : ℕ → ℕ → Bool) → AreFree shape.now queue test (bodies_of shape.now test) }
    ensures joining { (queue : List Commit) (c : Commit) (bytes : List ℕ) (now : Content) → IsHeld shape.now queue bytes now → AllSettled now → IsWritten shape.now now.bytes c
        → Each (λ e. e.ballot.order < c.ballot.order) queue → c.ballot.order < orders → IsJoining shape.now queue c bytes now }
{}

/// The votes of one more commit: before the barrier it counts whole or not at all, after it the queue has it.
pub fn votes_join_the_queue(shape: &Shape)
    ensures during { (queue : List Commit) (c : Commit) (bytes : List ℕ) (old : Content) (image : List ℕ) → IsJoining shape.now queue c bytes old → MayLeave (partly (votes_of shape.now (has_row c.ballot)) old) image
        → (let before = applied (queue_parts queue) bytes in IsEither shape.now before (applied c.parts before) image) }
    ensures after { (queue : List Commit) (c : Commit) (bytes : List ℕ) (old new : Content) → IsJoining shape.now queue c bytes old → Touched (votes_of shape.now (has_row c.ballot)) old new → AllSettled new
        → IsVoted shape.now new.bytes c → IsHeld shape.now (queue ++ c ∷ []) bytes new }
{}

/// The parts of the oldest commit: at every moment all is left as it stood, and after the barrier only its votes are to be cleared.
pub fn oldest_is_written_back(shape: &Shape)
    ensures during { (queue : List Commit) (c : Commit) (bytes : List ℕ) (old : Content) (image : List ℕ) → IsHeld shape.now (c ∷ queue) bytes old → MayLeave (partly (places_of shape.now c.parts) old) image
        → StandsFor shape.now image (applied (queue_parts (c ∷ queue)) bytes) }
    ensures after { (queue : List Commit) (c : Commit) (bytes : List ℕ) (old new : Content) → IsHeld shape.now (c ∷ queue) bytes old → Touched (places_of shape.now c.parts) old new → AllSettled new
        → data_of shape.now new.bytes ≡ applied c.parts (data_of shape.now old.bytes) → IsLeaving shape.now queue c (applied c.parts bytes) new }
{}

/// Its votes: at every moment all is left as it stood, and after the barrier the queue is without it.
pub fn votes_leave_the_queue(shape: &Shape)
    ensures during { (queue : List Commit) (c : Commit) (bytes : List ℕ) (old : Content) (image : List ℕ) → IsLeaving shape.now queue c bytes old → MayLeave (partly (votes_of shape.now (has_row c.ballot)) old) image
        → StandsFor shape.now image (applied (queue_parts queue) bytes) }
    ensures after { (queue : List Commit) (c : Commit) (bytes : List ℕ) (old new : Content) → IsLeaving shape.now queue c bytes old → Touched (votes_of shape.now (has_row c.ballot)) old new → AllSettled new
        → ((g t : ℕ) → g < shape.now.loggers → t < shape.now.numbers → has_row c.ballot g t ≡ true → (row_of shape.now new.bytes g t).voted ≡ false) → IsHeld shape.now queue bytes new }
{}

/// Votes, parts and cleared votes of one commit leave every other row as it was voted.
pub fn other_rows_stay_unvoted(shape: &Shape)
    ensures joined { (queue : List Commit) (c : Commit) (old new : List ℕ) → IsQuiet shape.now queue old → SameOutside (votes_of shape.now (has_row c.ballot)) old new → IsQuiet shape.now (queue ++ c ∷ []) new }
    ensures parts { (queue : List Commit) (ps : List Part) (old new : List ℕ) → AllPlaced shape.now ps → IsQuiet shape.now queue old → SameOutside (places_of shape.now ps) old new → IsQuiet shape.now queue new }
    ensures left { (queue : List Commit) (c : Commit) (old new : List ℕ) → IsQuiet shape.now (c ∷ queue) old → SameOutside (votes_of shape.now (has_row c.ballot)) old new
        → ((g t : ℕ) → g < shape.now.loggers → t < shape.now.numbers → has_row c.ballot g t ≡ true → (row_of shape.now new g t).voted ≡ false) → IsQuiet shape.now queue new }
    ensures free { (queue : List Commit) (test : ℕ → ℕ → Bool) (ranges : List (ℕ × ℕ)) (old new : List ℕ) → AreFree shape.now queue test ranges → SameOutside ranges old new → IsQuiet shape.now queue old → IsQuiet shape.now queue new }
{}

/// A commit of a group applies the lists of its numbers, by rising number.
pub fn group_applies_lists_in_turn(shape: &Shape)
    ensures { (image : List ℕ) (c : Commit) (lists : ℕ → List Part) (bytes : List ℕ) → length image ≡ media_len shape.now → IsWritten shape.now image c → length bytes ≡ data_len shape.now
        → ((t : ℕ) → t < shape.now.numbers → AllPlaced shape.now (lists t))
        → ((g t : ℕ) → g < shape.now.loggers → t < shape.now.numbers → parts_at shape.now g (lists t) ≡ named_at shape.now image c t g)
        → applied c.parts bytes ≡ applied (joined lists 0 shape.now.numbers) bytes }
{}

/// The deferred commits are as many as the different order numbers above 0 among the decided rows.
pub fn deferred_are_counted(shape: &Shape)
    ensures { (queue : List Commit) (bytes image : List ℕ) → Holds shape.now queue bytes image → Rise 1 queue
        → Each (λ c. (g : ℕ) × (t : ℕ) × (g < shape.now.loggers) × (t < shape.now.numbers) × (has_row c.ballot g t ≡ true)) queue
        → length (deferred_orders shape.now image) ≡ length queue }
{}

/// Recovery, with no vote left: no commit waits for its write-back.
pub fn nothing_waits_after_recovery(shape: &Shape)
    ensures { (bytes : List ℕ) (now : Content) → IsRecovering shape.now bytes now → ((g t : ℕ) → g < shape.now.loggers → t < shape.now.numbers → (row_of shape.now now.bytes g t).voted ≡ false) → IsAtRest shape.now [] bytes now }
{}

/// Between two calls: writes into cells that no commit of the queue names leave all as it was.
pub fn cells_change_nothing(shape: &Shape)
    ensures during { (queue : List Commit) (bytes : List ℕ) (ranges : List (ℕ × ℕ)) (old : Content) (image : List ℕ) → AreFree shape.now queue (λ g t. false) ranges → AllWithin (length old.bytes) ranges
        → IsAtRest shape.now queue bytes old → MayLeave (partly ranges old) image → Rests shape.now queue bytes image }
    ensures after { (queue : List Commit) (bytes : List ℕ) (ranges : List (ℕ × ℕ)) (old new : Content) → AreFree shape.now queue (λ g t. false) ranges → AllWithin (length old.bytes) ranges
        → IsAtRest shape.now queue bytes old → Touched ranges old new → IsAtRest shape.now queue bytes new }
{}

/// What a commit says of rows that it does not have does not matter: queues whose commits say the same wait alike, and have the same parts.
pub fn alike_commits_wait_alike(shape: &Shape)
    ensures rest { (queue other : List Commit) (bytes : List ℕ) (now : Content) → AreAlike shape.now queue other → IsAtRest shape.now queue bytes now → IsAtRest shape.now other bytes now }
    ensures parts { (queue other : List Commit) → AreAlike shape.now queue other → queue_parts other ≡ queue_parts queue }
{}
