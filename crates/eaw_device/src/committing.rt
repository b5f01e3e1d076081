// Commits of what logs have from positions on.
ghost use Rattle.std.specs.Prelude.{◌≡◌, ◌≢◌, ◌-◌, ◌^◌, ◌≤◌, ◌<◌, ℕ, Bool, List, [], ◌∷◌, true, false, ◌&&◌, ◌||◌, nat_eq, nat_lt, drop, take, length, slice_index, slice_get, IsTrue, OnOk, OnErr, filter};
ghost use Rattle.std.specs.Option.{ForSome};
ghost use Rattle.pcm_media.specs.Images.{Content};
ghost use Rattle.array_shape.specs.Places.{media_len};
ghost use Rattle.array_shape.specs.NumberSet.{has, members};
ghost use Rattle.coordinator.specs.Commits.{cells_in};
ghost use Rattle.eaw_face.specs.State.{is_one_of, listed, group_log, count_on};
ghost use Rattle.eaw_device.specs.declared.log.Log.{Log};
ghost use Rattle.eaw_device.specs.Logs.{IsKept, IsHeld, ranges_logged, parts_logged};
ghost use Rattle.write_back.specs.Entries.{AreHeld, ranges_in, parts_in, cells_on};
ghost use Rattle.write_back.specs.Shown.{entries_of};
ghost use Rattle.eaw_device.specs.Sound.{IsBefore};
ghost use Rattle.write_back.specs.Orders.{IsFree};
ghost use Rattle.write_back.specs.Waiting.{AreWaiting, data_with};
ghost use Rattle.write_back.specs.Steps.{Commits};
ghost use Rattle.write_back.specs.Tied.{IsReady, IsTied, Stays};
ghost use Rattle.eaw_device.specs.Costs.{commit_cost, with_entries};
ghost use Rattle.eaw_device.specs.Groups.{CommitsGroup, HaveCells, HaveEntries, HaveParts, group_count};

use crate::log::Log;
use array_shape::{NumberSet, Shape};
use coordinator::{Cells, ballot_for};
use mars_base::Failed;
use pcm_media::Media;
use write_back::LateData;

/// Commits the parts that number `tid` has logged from position `offset` on, once what waits of the number is written back. The log itself
/// stays as it is. If there is no such part, nothing is done.
pub(crate) fn commit_log<M: Media>(
    media: &mut M,
    shape: &Shape,
    late: &mut LateData,
    tid: u8,
    log: &Log,
    offset: usize,
) -> Result<(), Failed>
    requires tid { tid < shape.now.numbers }
    requires kept { IsKept shape.now log.now }
    requires offset { offset ≤ length log.now.entries.items }
    requires size { (M.view media.old).size ≡ media_len shape.now }
    requires ready { IsReady shape.now late.old }
    requires tied { IsTied shape.now late.old (λ t. false) }
    requires waiting { IsTrue M.tells → AreWaiting shape.now late.old.queue (M.view media.old).content }
    requires held { IsTrue M.tells → IsHeld shape.now (M.view media.old).content.bytes tid log.now }
    ensures does { Commits M.tells shape.now (drop offset (parts_in shape.now (M.view media.old).content.bytes tid log.now.entries.items))
        (commit_cost shape.now late.old.queue (tid ∷ []) (drop offset (ranges_in log.now.entries.items))) late.old.queue (M.view media.old) late.new.queue (M.view media.new) result }
    ensures stays { Stays M.tells shape.now late.old (M.view media.old) late.new (M.view media.new) }
    ensures tied { OnOk result (IsTied shape.now late.new (λ t. false)) }
    // The cells of the first entries come before those that are committed.
    ensures before { OnOk result ((now : Log) → IsKept shape.now now → now.entries.items ≡ take offset log.now.entries.items → IsBefore shape.now late.old.queue tid log.now → IsBefore shape.now late.new.queue tid now) }
    ensures others { OnOk result ((t : ℕ) (its : Log) → t ≢ tid → IsBefore shape.now late.old.queue t its → IsBefore shape.now late.new.queue t its) }
    ensures waits { 0 < late.old.queue.depth → offset < length log.now.entries.items → OnOk result (0 < length late.new.queue.ballots.items) }
    ensures due { OnErr result (offset < length log.now.entries.items) }
    ensures idle { length log.now.entries.items ≡ offset → media.new ≡ media.old }
{
    if offset == log.entries.len() {
        return Ok(());
    }
    let group = 1 << tid;
    late.write_back_for(media, shape, group)?;
    set_aside(late, shape, tid, log, offset);
    commit_cells(media, shape, late, group)
}

/// Commits what the numbers of a set have logged, all at once, once what waits of those with a part is written back. The logs themselves
/// stay as they are. If there is no part, nothing is done.
pub(crate) fn commit_logs<M: Media>(
    media: &mut M,
    shape: &Shape,
    late: &mut LateData,
    logs: &[Log],
    tids: NumberSet,
) -> Result<(), Failed>
    requires many { length logs.now ≡ shape.now.numbers }
    requires kept { (t : ℕ) → ForSome (slice_get logs.now t) (IsKept shape.now) }
    requires size { (M.view media.old).size ≡ media_len shape.now }
    requires ready { IsReady shape.now late.old }
    requires tied { IsTied shape.now late.old (λ t. false) }
    requires waiting { IsTrue M.tells → AreWaiting shape.now late.old.queue (M.view media.old).content }
    requires held { IsTrue M.tells → (t : ℕ) → ForSome (slice_get logs.now t) (IsHeld shape.now (M.view media.old).content.bytes t) }
    ensures does { Commits M.tells shape.now (group_log (parts_logged shape.now (M.view media.old).content.bytes logs.now) (members tids))
        (commit_cost shape.now late.old.queue (with_entries (ranges_logged logs.now) (members tids)) (group_log (ranges_logged logs.now) (members tids)))
        late.old.queue (M.view media.old) late.new.queue (M.view media.new) result }
    ensures stays { Stays M.tells shape.now late.old (M.view media.old) late.new (M.view media.new) }
    ensures tied { OnOk result (IsTied shape.now late.new (λ t. false)) }
    ensures others { OnOk result ((t : ℕ) (its : Log) → is_one_of (members tids) t ≡ false → IsBefore shape.now late.old.queue t its → IsBefore shape.now late.new.queue t its) }
    ensures waits { 0 < late.old.queue.depth → 0 < length (group_log (ranges_logged logs.now) (members tids)) → OnOk result (0 < length late.new.queue.ballots.items) }
    ensures due { OnErr result (0 < length (group_log (ranges_logged logs.now) (members tids))) }
    ensures idle { length (group_log (ranges_logged logs.now) (members tids)) ≡ 0 → media.new ≡ media.old }
{
    let group = logged(shape, logs, tids);
    if group.bits == 0 {
        return Ok(());
    }
    late.write_back_for(media, shape, group.bits)?;
    set_group_aside(late, shape, logs, group);
    commit_cells(media, shape, late, group.bits)
}

// Those numbers of a set that have logged anything.
fn logged(shape: &Shape, logs: &[Log], tids: NumberSet) -> NumberSet
    requires many { length logs.now ≡ shape.now.numbers }
    requires kept { (t : ℕ) → ForSome (slice_get logs.now t) (IsKept shape.now) }
    ensures numbers { (t : ℕ) → t < shape.now.numbers → has result.bits t ≡ (has tids.bits t && nat_lt 0 (length (listed (ranges_logged logs.now t)))) }
    ensures beyond { (t : ℕ) → shape.now.numbers ≤ t → has result.bits t ≡ false }
{
    let mut group = NumberSet::empty();
    for tid in 0..shape.numbers {
        if !tids.contains(tid) {
            continue;
        }
        let log = &logs[usize::from(tid)];
        if log.entries.is_empty() {
            continue;
        }
        group = group.with(tid);
    }
    group
}

// Sets aside all that the numbers of a group have logged.
fn set_group_aside(late: &mut LateData, shape: &Shape, logs: &[Log], group: NumberSet)
    requires many { length logs.now ≡ shape.now.numbers }
    requires kept { (t : ℕ) → ForSome (slice_get logs.now t) (IsKept shape.now) }
    requires ready { IsReady shape.now late.old }
    requires tied { IsTied shape.now late.old (λ t. false) }
    requires apart { (t : ℕ) → has group.bits t ≡ true → IsFree t late.old.queue.ballots.items }
    ensures ready { IsReady shape.now late.new }
    ensures ballots { late.new.queue.ballots ≡ late.old.queue.ballots }
    ensures depth { late.new.queue.depth ≡ late.old.queue.depth }
    ensures first { (g t : ℕ) → g < shape.now.loggers → t < shape.now.numbers → has group.bits t ≡ true → (cells_in late.new.queue.cells g t).first ≡ 0 }
    ensures count { (g t : ℕ) → g < shape.now.loggers → t < shape.now.numbers → has group.bits t ≡ true → (cells_in late.new.queue.cells g t).count ≡ count_on shape.now g (listed (ranges_logged logs.now t)) }
    ensures others { (g t : ℕ) → g < 8 → has group.bits t ≡ false → cells_in late.new.queue.cells g t ≡ cells_in late.old.queue.cells g t }
    ensures entries { 0 < late.old.queue.depth → HaveEntries shape.now group.bits late.new.queue.cells (entries_of late.new.parts) }
    ensures tied { IsTied shape.now late.new (λ t. nat_lt 0 late.old.queue.depth && (nat_lt t shape.now.numbers && has group.bits t)) }
    ensures waiting { (now : Content) → AreWaiting shape.now late.old.queue now → AreWaiting shape.now late.new.queue now }
    ensures same { (image : List ℕ) → data_with shape.now late.new.queue image ≡ data_with shape.now late.old.queue image }
    ensures held { (image : List ℕ) → ((t : ℕ) → ForSome (slice_get logs.now t) (IsHeld shape.now image t)) → AreHeld shape.now image (entries_of late.old.parts) → AreHeld shape.now image (entries_of late.new.parts) }
{
    for tid in 0..shape.numbers {
        if !group.contains(tid) {
            continue;
        }
        set_aside(late, shape, tid, &logs[usize::from(tid)], 0);
    }
}

// Names the cells that a log has from position `offset` on for its number's next commit, and keeps their entries. What waits stays as it is.
fn set_aside(late: &mut LateData, shape: &Shape, tid: u8, log: &Log, offset: usize)
    requires tid { tid < shape.now.numbers }
    requires kept { IsKept shape.now log.now }
    requires offset { offset ≤ length log.now.entries.items }
    requires ready { IsReady shape.now late.old }
    requires apart { IsFree tid late.old.queue.ballots.items }
    requires none { entries_of late.old.parts tid ≡ [] }
    ensures ready { IsReady shape.now late.new }
    ensures ballots { late.new.queue.ballots ≡ late.old.queue.ballots }
    ensures depth { late.new.queue.depth ≡ late.old.queue.depth }
    ensures here { (g : ℕ) → g < shape.now.loggers → cells_in late.new.queue.cells g tid ≡
        (let first = length (cells_on shape.now g (take offset log.now.entries.items)) in record { first = first; count = slice_index log.now.held g - first }) }
    ensures others { (g t : ℕ) → g < 8 → t ≢ tid → cells_in late.new.queue.cells g t ≡ cells_in late.old.queue.cells g t }
    ensures entries { 0 < late.old.queue.depth → entries_of late.new.parts tid ≡ drop offset log.now.entries.items }
    ensures beside { (t : ℕ) → t ≢ tid → entries_of late.new.parts t ≡ entries_of late.old.parts t }
    ensures tied { (aside : ℕ → Bool) → IsTied shape.now late.old (λ t. nat_lt 0 late.old.queue.depth && aside t) → IsTied shape.now late.new (λ t. nat_lt 0 late.old.queue.depth && (nat_eq t tid || aside t)) }
    ensures waiting { (now : Content) → AreWaiting shape.now late.old.queue now → AreWaiting shape.now late.new.queue now }
    ensures same { (image : List ℕ) → data_with shape.now late.new.queue image ≡ data_with shape.now late.old.queue image }
    ensures held { (image : List ℕ) → IsHeld shape.now image tid log.now → AreHeld shape.now image (entries_of late.old.parts) → AreHeld shape.now image (entries_of late.new.parts) }
{
    name_cells(late, shape, tid, log, offset);
    late.keep(shape, tid, &log.entries[offset..]);
}

// Puts the cells that a log has from position `offset` on into the places of its number: eight for each number, one for each logger.
fn name_cells(late: &mut LateData, shape: &Shape, tid: u8, log: &Log, offset: usize)
    requires tid { tid < shape.now.numbers }
    requires kept { IsKept shape.now log.now }
    requires offset { offset ≤ length log.now.entries.items }
    requires ready { IsReady shape.now late.old }
    requires apart { IsFree tid late.old.queue.ballots.items }
    ensures ready { IsReady shape.now late.new }
    ensures here { (g : ℕ) → g < shape.now.loggers → cells_in late.new.queue.cells g tid ≡
        (let first = length (cells_on shape.now g (take offset log.now.entries.items)) in record { first = first; count = slice_index log.now.held g - first }) }
    ensures others { (g t : ℕ) → g < 8 → t ≢ tid → cells_in late.new.queue.cells g t ≡ cells_in late.old.queue.cells g t }
    ensures ballots { late.new.queue.ballots ≡ late.old.queue.ballots }
    ensures depth { late.new.queue.depth ≡ late.old.queue.depth }
    ensures parts { late.new.parts ≡ late.old.parts }
    ensures tied { (aside : ℕ → Bool) → IsTied shape.now late.old aside → IsTied shape.now late.new aside }
    ensures waiting { (now : Content) → AreWaiting shape.now late.old.queue now → AreWaiting shape.now late.new.queue now }
    ensures same { (image : List ℕ) → data_with shape.now late.new.queue image ≡ data_with shape.now late.old.queue image }
{
    let firsts = log.counts_of_first(shape, offset);
    for logger in 0..shape.loggers {
        let at = usize::from(logger);
        let first = firsts[at];
        let count = log.held[at] - first;
        late.name(shape, logger, tid, Cells { first, count });
    }
}

// Commits the parts in the cells that a table names for the numbers of a group, which have no commit that waits.
fn commit_cells<M: Media>(
    media: &mut M,
    shape: &Shape,
    late: &mut LateData,
    group: u64,
) -> Result<(), Failed>
    requires group { group < 2 ^ shape.now.numbers }
    requires size { (M.view media.old).size ≡ media_len shape.now }
    requires ready { IsReady shape.now late.old }
    requires tied { IsTied shape.now late.old (λ t. nat_lt 0 late.old.queue.depth && has group t) }
    requires entries { 0 < late.old.queue.depth → HaveEntries shape.now group late.old.queue.cells (entries_of late.old.parts) }
    requires apart { (t : ℕ) → has group t ≡ true → IsFree t late.old.queue.ballots.items }
    requires waiting { IsTrue M.tells → AreWaiting shape.now late.old.queue (M.view media.old).content }
    requires there { HaveCells shape.now group late.old.queue.cells }
    requires good { IsTrue M.tells → HaveParts shape.now (M.view media.old).content.bytes group late.old.queue.cells }
    requires some { 0 < group_count shape.now group late.old.queue.cells }
    ensures does { CommitsGroup M.tells shape.now group late.old.queue (M.view media.old) late.new.queue (M.view media.new) result }
    ensures waits { 0 < late.old.queue.depth → OnOk result (0 < length late.new.queue.ballots.items) }
    ensures stays { Stays M.tells shape.now late.old (M.view media.old) late.new (M.view media.new) }
    ensures tied { OnOk result (IsTied shape.now late.new (λ t. false)) }
{
    let ballot = ballot_for(shape, late.cells(), group, 0);
    late.commit(media, shape, ballot)
}
