// Laws of images: each follows from the definitions alone.
ghost use Rattle.std.specs.Prelude.{List, ℕ, ◌++◌, ◌≡◌, ◌<◌, ◌≤◌, ◌+◌, true, false, length};
ghost use Rattle.pcm_media.specs.Images.{Content, MayLeave, SameOutside, Touched, partly};
ghost use Rattle.array_shape.specs.Places.{data_len};
ghost use Rattle.array_shape.specs.Logged.{Part, AllFit, AllPlaced, applied, parts_at, places_of, ranges_of};
ghost use Rattle.array_image.specs.Image.{data_of, row_of};
ghost use Rattle.array_image.specs.Joined.{joined};
ghost use Rattle.array_image.specs.Standing.{AllSettled, IsRecovering, IsLawful, IsSettled, StandsFor};
ghost use Rattle.row_bytes.specs.Ballots.{ballot_of, has_row};
ghost use Rattle.array_image.specs.Decided.{all_decided, decided, decided_as, order_parts, orders, settled_data};
ghost use Rattle.array_image.specs.Votes.{dropped, votes_of};

use array_shape::Shape;

/// Parts in another order give the same data if those of each logger are in the same order: loggers share no page.
pub fn order_of_loggers_is_free(shape: &Shape)
    ensures { (ps qs : List Part) (bytes : List ℕ) → length bytes ≡ data_len shape.now → AllPlaced shape.now ps → AllPlaced shape.now qs
        → ((g : ℕ) → g < shape.now.loggers → parts_at shape.now g ps ≡ parts_at shape.now g qs) → applied ps bytes ≡ applied qs bytes }
{}

/// Parts that are applied again change nothing, whatever bytes stood where they lie.
pub fn applied_again_is_applied()
    ensures { (ps : List Part) (bytes others : List ℕ) → AllFit (length bytes) ps → SameOutside (ranges_of ps) (applied ps bytes) others → applied ps others ≡ applied ps bytes }
{}

/// A suffix of parts that were all applied changes nothing when it is applied again.
pub fn suffix_changes_nothing()
    ensures { (ps qs : List Part) (bytes : List ℕ) → AllFit (length bytes) (ps ++ qs) → applied qs (applied (ps ++ qs) bytes) ≡ applied (ps ++ qs) bytes }
{}

/// The rows of a decided row's ballot are decided all together: each is voted, with that same ballot.
pub fn decided_together(shape: &Shape)
    ensures { (image : List ℕ) (g t h u : ℕ) → g < shape.now.loggers → t < shape.now.numbers → h < shape.now.loggers → u < shape.now.numbers → decided shape.now image g t ≡ true
        → has_row (ballot_of t (row_of shape.now image g t)) h u ≡ true
        → (decided shape.now image h u ≡ true) × ((row_of shape.now image h u).voted ≡ true) × (ballot_of u (row_of shape.now image h u) ≡ ballot_of t (row_of shape.now image g t)) }
{}

/// Recovery, first: the parts of all decided rows that are written into the data, torn or whole, change nothing.
pub fn application_changes_nothing(shape: &Shape)
    ensures { (old image : List ℕ) → IsLawful shape.now old → SameOutside (places_of shape.now (all_decided shape.now old)) old image → StandsFor shape.now image (settled_data shape.now old) }
{}

/// Then: torn votes of the rows that are not decided change nothing.
pub fn dropped_votes_change_nothing(shape: &Shape)
    ensures { (bytes old image : List ℕ) → IsSettled shape.now bytes old → SameOutside (votes_of shape.now (dropped shape.now old)) old image → IsSettled shape.now bytes image }
{}

/// Then: torn votes of the decided rows with the lowest order number change nothing while the higher ones stay.
pub fn lowest_votes_change_nothing(shape: &Shape)
    ensures { (order : ℕ) (bytes old image : List ℕ) → order < orders → IsSettled shape.now bytes old
        → ((g t : ℕ) → g < shape.now.loggers → t < shape.now.numbers → decided shape.now old g t ≡ true → order ≤ (row_of shape.now old g t).order)
        → SameOutside (votes_of shape.now (decided_as shape.now old order)) old image → IsSettled shape.now bytes image }
{}

/// A loop over rising order numbers applies what all decided rows name.
pub fn orders_one_after_another(shape: &Shape)
    ensures next { (image : List ℕ) (from order : ℕ) → from ≤ order
        → ((g t : ℕ) → g < shape.now.loggers → t < shape.now.numbers → decided shape.now image g t ≡ true → from ≤ (row_of shape.now image g t).order → order ≤ (row_of shape.now image g t).order)
        → joined (order_parts shape.now image) 0 (order + 1) ≡ joined (order_parts shape.now image) 0 from ++ order_parts shape.now image order }
    ensures last { (image : List ℕ) (from : ℕ) → from ≤ orders
        → ((g t : ℕ) → g < shape.now.loggers → t < shape.now.numbers → decided shape.now image g t ≡ true → (row_of shape.now image g t).order < from) → all_decided shape.now image ≡ joined (order_parts shape.now image) 0 from }
{}

/// Recovery applies the parts of all decided rows: at every moment what is left settles to the same data.
pub fn recovery_applies(shape: &Shape)
    ensures during { (old : Content) (image : List ℕ) → AllSettled old → IsLawful shape.now old.bytes → MayLeave (partly (places_of shape.now (all_decided shape.now old.bytes)) old) image
        → StandsFor shape.now image (settled_data shape.now old.bytes) }
    ensures after { (old new : Content) → AllSettled old → IsLawful shape.now old.bytes → Touched (places_of shape.now (all_decided shape.now old.bytes)) old new → AllSettled new
        → data_of shape.now new.bytes ≡ settled_data shape.now old.bytes → IsRecovering shape.now (settled_data shape.now old.bytes) new }
{}

/// It clears the votes of the rows that are not decided: at every moment what is left settles to the same data.
pub fn recovery_drops(shape: &Shape)
    ensures during { (bytes : List ℕ) (old : Content) (image : List ℕ) → IsRecovering shape.now bytes old → MayLeave (partly (votes_of shape.now (dropped shape.now old.bytes)) old) image → IsSettled shape.now bytes image }
    ensures after { (bytes : List ℕ) (old new : Content) → IsRecovering shape.now bytes old → Touched (votes_of shape.now (dropped shape.now old.bytes)) old new → AllSettled new → IsRecovering shape.now bytes new }
{}

/// It clears the votes of the decided rows with the lowest order number, then of the next: at every moment what is left settles to
/// the same data.
pub fn recovery_clears(shape: &Shape)
    ensures during { (order : ℕ) (bytes : List ℕ) (old : Content) (image : List ℕ) → order < orders → IsRecovering shape.now bytes old
        → ((g t : ℕ) → g < shape.now.loggers → t < shape.now.numbers → decided shape.now old.bytes g t ≡ true → order ≤ (row_of shape.now old.bytes g t).order)
        → MayLeave (partly (votes_of shape.now (decided_as shape.now old.bytes order)) old) image → IsSettled shape.now bytes image }
    ensures after { (order : ℕ) (bytes : List ℕ) (old new : Content) → order < orders → IsRecovering shape.now bytes old
        → ((g t : ℕ) → g < shape.now.loggers → t < shape.now.numbers → decided shape.now old.bytes g t ≡ true → order ≤ (row_of shape.now old.bytes g t).order)
        → Touched (votes_of shape.now (decided_as shape.now old.bytes order)) old new → AllSettled new → IsRecovering shape.now bytes new }
    ensures next { (order : ℕ) (old new : List ℕ) → ((g t : ℕ) → g < shape.now.loggers → t < shape.now.numbers → decided shape.now old g t ≡ true → order ≤ (row_of shape.now old g t).order)
        → SameOutside (votes_of shape.now (decided_as shape.now old order)) old new
        → ((g t : ℕ) → g < shape.now.loggers → t < shape.now.numbers → decided_as shape.now old order g t ≡ true → (row_of shape.now new g t).voted ≡ false)
        → (g t : ℕ) → g < shape.now.loggers → t < shape.now.numbers → decided shape.now new g t ≡ true → order + 1 ≤ (row_of shape.now new g t).order }
{}
