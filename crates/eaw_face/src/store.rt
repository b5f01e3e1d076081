// The commands of an array, as the layers above see them.
ghost use Rattle.std.specs.Prelude.{◌≡◌, ◌≢◌, ◌+◌, ◌≤◌, ◌<◌, true, false, Bool, List, [], ℕ, slice_index_or, take, drop, length, Option, None, is_some, IsTrue, IfOk, IfErr, OnOk, OnErr, IsErrOf};
ghost use Rattle.std.specs.Option.{option_map};
ghost use Rattle.mars_base.specs.Bytes.{range};
ghost use Rattle.mars_base.specs.Costs.{Costs};
ghost use Rattle.array_shape.specs.declared.shape.Shape.{Shape};
ghost use Rattle.array_shape.specs.Places.{data_len, IsShape};
ghost use Rattle.array_shape.specs.Logged.{ranges_of};
ghost use Rattle.array_shape.specs.NumberSet.{members};
ghost use Rattle.eaw_face.specs.State.{listed, group_log, range_at, part_at, count_on};
ghost use Rattle.eaw_face.specs.Command.{Command, log_write, log_edit, commit, commit_group, abort, nested_top, partial_abort, atomic_write, log_read, read};
ghost use Rattle.eaw_face.specs.StoreView.{StoreView, IsLive, ArePlaced, LeavesSome, log_len};
ghost use Rattle.eaw_face.specs.Mirroring.{GivesUp};
ghost use Rattle.eaw_face.specs.Does.{Does};

use crate::fault::EawFault;
use array_shape::{NumberSet, Shape};

/// An array of editable atomic writes (SOSP 2013). A write is logged under a transaction number, cut into parts at the
/// multiples of 512, and changes the data when that number commits. Until then its log can be read and edited.
///
/// Each command is one of the model's (`Does`): what it makes of data and logs, when each refusal comes, and what a loss of
/// power during it may leave. After a refusal other than `Media` nothing has changed. After `Media` each command answers `Dead`.
pub trait EawStore {
    /// Whether contracts speak of its data. Each clause on bytes has this as a premise.
    ghost tells: { Bool };

    /// Its shape, its data and logs, and what a loss of power might have left.
    ghost view: { Self → StoreView };

    /// Whether an image that a loss of power left opens as an array of this shape, with this data.
    ghost opens: { Shape → List ℕ → List ℕ → Type 0 };

    /// How many calls of its medium a command costs now if it is done. Otherwise it makes at most this many.
    ghost calls: { Self → Command → ℕ };

    /// Whether a commit may be answered before its data is written to its place.
    ghost defers: { Bool } = { false };

    /// How many commits were answered and wait for that.
    ghost waiting: { Self → ℕ } = { λ _. 0 };

    fn shape(&self) -> Shape
        ensures { result ≡ (view self.now).shape };

    /// LogWrite: logs a write of these bytes at this address, and makes a free number live. Returns how many parts the number has
    /// logged by now.
    fn log_write(&mut self, tid: u8, addr: u64, bytes: &[u8]) -> Result<u32, EawFault>
        requires some { 0 < length bytes.now }
        requires inside { addr + length bytes.now ≤ data_len (view self.old).shape }
        ensures does { Does tells (opens (view self.old).shape) (log_write tid addr bytes.now) (view self.old) (view self.new) result }
        ensures len { IfOk result (λ n. n ≡ log_len (view self.new) tid) }
        ensures costs { Costs tells (calls self.old (log_write tid addr bytes.now)) (view self.old).moment (view self.new).moment result }
        ensures refused { IfErr result (λ fault. fault ≢ EawFault.Media → self.new ≡ self.old) };

    /// Commit: writes all that the number has logged into the data at once, and frees the number.
    fn commit(&mut self, tid: u8) -> Result<(), EawFault>
        ensures does { Does tells (opens (view self.old).shape) (commit tid) (view self.old) (view self.new) result }
        ensures due { IsErrOf result EawFault.Media → 0 < log_len (view self.old) tid }
        ensures idle { log_len (view self.old) tid ≡ 0 → (view self.new).moment ≡ (view self.old).moment }
        ensures costs { Costs tells (calls self.old (commit tid)) (view self.old).moment (view self.new).moment result }
        ensures late { IsTrue defers → 0 < log_len (view self.old) tid → OnOk result (0 < waiting self.new) }
        ensures refused { IfErr result (λ fault. fault ≢ EawFault.Media → self.new ≡ self.old) };

    /// CommitGroup: commits several numbers at once. All that they have logged is written into the data, that of the lowest number first,
    /// and the numbers are free. The refusal of a number that is not live names the lowest such one. A set with no number in it is done
    /// with no call of the medium.
    fn commit_group(&mut self, tids: NumberSet) -> Result<(), EawFault>
        ensures does { Does tells (opens (view self.old).shape) (commit_group (members tids)) (view self.old) (view self.new) result }
        ensures due { IsErrOf result EawFault.Media → 0 < length (group_log (view self.old).ranges (members tids)) }
        ensures idle { length (group_log (view self.old).ranges (members tids)) ≡ 0 → (view self.new).moment ≡ (view self.old).moment }
        ensures costs { Costs tells (calls self.old (commit_group (members tids))) (view self.old).moment (view self.new).moment result }
        ensures late { IsTrue defers → 0 < length (group_log (view self.old).ranges (members tids)) → OnOk result (0 < waiting self.new) }
        ensures refused { IfErr result (λ fault. fault ≢ EawFault.Media → self.new ≡ self.old) };

    /// Abort: drops all that the number has logged, and frees the number.
    fn abort(&mut self, tid: u8) -> Result<(), EawFault>
        ensures does { Does tells (opens (view self.old).shape) (abort tid) (view self.old) (view self.new) result }
        ensures due { IsErrOf result EawFault.Media → ⊥ }
        ensures idle { (view self.new).moment ≡ (view self.old).moment }
        ensures costs { Costs tells (calls self.old (abort tid)) (view self.old).moment (view self.new).moment result }
        ensures refused { OnErr result (self.new ≡ self.old) };

    /// NestedTopAction: commits the parts from `offset` of the log on, which then stay whatever becomes of the rest. The
    /// number keeps the parts before `offset`, and stays live.
    fn nested_top(&mut self, tid: u8, offset: u32) -> Result<(), EawFault>
        requires { offset ≤ log_len (view self.old) tid }
        ensures does { Does tells (opens (view self.old).shape) (nested_top tid offset) (view self.old) (view self.new) result }
        ensures due { IsErrOf result EawFault.Media → offset < log_len (view self.old) tid }
        ensures idle { log_len (view self.old) tid ≡ offset → (view self.new).moment ≡ (view self.old).moment }
        ensures costs { Costs tells (calls self.old (nested_top tid offset)) (view self.old).moment (view self.new).moment result }
        ensures late { IsTrue defers → offset < log_len (view self.old) tid → OnOk result (0 < waiting self.new) }
        ensures refused { IfErr result (λ fault. fault ≢ EawFault.Media → self.new ≡ self.old) };

    /// PartialAbort: drops the parts from `offset` of the log on. The number stays live.
    fn partial_abort(&mut self, tid: u8, offset: u32) -> Result<(), EawFault>
        requires { offset ≤ log_len (view self.old) tid }
        ensures does { Does tells (opens (view self.old).shape) (partial_abort tid offset) (view self.old) (view self.new) result }
        ensures due { IsErrOf result EawFault.Media → ⊥ }
        ensures idle { (view self.new).moment ≡ (view self.old).moment }
        ensures costs { Costs tells (calls self.old (partial_abort tid offset)) (view self.old).moment (view self.new).moment result }
        ensures refused { OnErr result (self.new ≡ self.old) };

    /// AtomicWrite: a transaction of one write, under a number that is free before it and after it.
    fn atomic_write(&mut self, tid: u8, addr: u64, bytes: &[u8]) -> Result<(), EawFault>
        requires some { 0 < length bytes.now }
        requires inside { addr + length bytes.now ≤ data_len (view self.old).shape }
        requires tid { tid < (view self.old).shape.numbers }
        requires free { (view self.old).ranges tid ≡ None }
        ensures does { Does tells (opens (view self.old).shape) (atomic_write tid addr bytes.now) (view self.old) (view self.new) result }
        ensures costs { Costs tells (calls self.old (atomic_write tid addr bytes.now)) (view self.old).moment (view self.new).moment result }
        ensures late { IsTrue defers → OnOk result (0 < waiting self.new) }
        ensures refused { IfErr result (λ fault. fault ≢ EawFault.Media → self.new ≡ self.old) };

    /// Reads the part at position `pos` of the log into the front of the buffer. Returns its address and its length in bytes. What each
    /// command costs stays as it was.
    fn log_read(&mut self, tid: u8, pos: u32, buf: &mut [u8; 512]) -> Result<(u64, u16), EawFault>
        requires { IsLive (view self.old) tid → pos < log_len (view self.old) tid }
        ensures does { Does tells (opens (view self.old).shape) (log_read tid) (view self.old) (view self.new) result }
        ensures part { IfOk result (λ part. part ≡ range_at (listed ((view self.old).ranges tid)) pos) }
        ensures bytes { IsTrue tells → IfOk result (λ part. take part.1 buf.new ≡ (part_at (listed ((view self.old).state.logs tid)) pos).1) }
        ensures costs { Costs true (calls self.old (log_read tid)) (view self.old).moment (view self.new).moment result }
        ensures steady { OnOk result ((command : Command) → calls self.new command ≡ calls self.old command) }
        ensures refused { IfErr result (λ fault. fault ≢ EawFault.Media → self.new ≡ self.old) }
        ensures unread { IfErr result (λ fault. fault ≢ EawFault.Media → buf.new ≡ buf.old) };

    /// Replaces bytes within the part at position `pos` of the log, from byte `at` of the part on.
    fn log_edit(&mut self, tid: u8, pos: u32, at: u32, bytes: &[u8]) -> Result<(), EawFault>
        requires pos { IsLive (view self.old) tid → pos < log_len (view self.old) tid }
        requires within { IsLive (view self.old) tid → at + length bytes.now ≤ (range_at (listed ((view self.old).ranges tid)) pos).1 }
        ensures does { Does tells (opens (view self.old).shape) (log_edit tid pos at bytes.now) (view self.old) (view self.new) result }
        ensures costs { Costs tells (calls self.old (log_edit tid pos at bytes.now)) (view self.old).moment (view self.new).moment result }
        ensures refused { IfErr result (λ fault. fault ≢ EawFault.Media → self.new ≡ self.old) };

    /// Fills the buffer with committed data from `addr` on. What each command costs stays as it was.
    fn read(&mut self, addr: u64, buf: &mut [u8]) -> Result<(), EawFault>
        requires { addr + length buf.old ≤ data_len (view self.old).shape }
        ensures does { Does tells (opens (view self.old).shape) (read addr (length buf.old)) (view self.old) (view self.new) result }
        ensures bytes { IsTrue tells → OnOk result (buf.new ≡ range (view self.old).state.bytes addr (length buf.old)) }
        ensures costs { Costs true (calls self.old (read addr (length buf.old))) (view self.old).moment (view self.new).moment result }
        ensures steady { OnOk result ((command : Command) → calls self.new command ≡ calls self.old command) }
        ensures refused { IfErr result (λ fault. fault ≢ EawFault.Media → self.new ≡ self.old) }
        ensures unread { IfErr result (λ fault. fault ≢ EawFault.Media → buf.new ≡ buf.old) };

    /// How many parts the number has logged: 0 if it is not live.
    fn log_len(&self, tid: u8) -> u32
        requires { tid < (view self.now).shape.numbers }
        ensures { result ≡ log_len (view self.now) tid };

    /// How many of the number's parts this logger holds.
    fn held(&self, tid: u8, logger: u8) -> u16
        requires tid { tid < (view self.now).shape.numbers }
        requires logger { logger < (view self.now).shape.loggers }
        ensures { result ≡ count_on (view self.now).shape logger (listed ((view self.now).ranges tid)) };

    /// Whether an earlier call has met a fault of the medium.
    fn is_dead(&self) -> bool
        ensures { result ≡ (view self.now).is_dead };

    fn is_live(&self, tid: u8) -> bool
        requires { tid < (view self.now).shape.numbers }
        ensures { result ≡ is_some ((view self.now).ranges tid) };

    /// The address and the length in bytes of the part at position `pos` of the log.
    fn part_range(&self, tid: u8, pos: u32) -> (u64, u16)
        requires tid { tid < (view self.now).shape.numbers }
        requires pos { pos < log_len (view self.now) tid }
        ensures { result ≡ range_at (listed ((view self.now).ranges tid)) pos };

    /// The oldest frame that was sent and is not yet given up. It is empty if there is none.
    fn first_frame(&self) -> &[u8]
        ensures { IsTrue (view self.now).sending.told → result.now ≡ slice_index_or (view self.now).sending.frames 0 [] };

    /// Gives that frame up. If there is none, it does nothing.
    fn drop_frame(&mut self)
        ensures gives_up { GivesUp (view self.old) (view self.new) }
        ensures steady { (command : Command) → calls self.new command ≡ calls self.old command }
        ensures waiting { waiting self.new ≡ waiting self.old };

    /// Whether the sending has ended. A store that does not mirror never sends, and answers `false`.
    fn link_down(&self) -> bool
        ensures { result ≡ (view self.now).sending.is_down };

    /// The numbers of its shape are in range.
    ghost shaped: { (s : Self) → IsShape (view s).shape };

    /// At most as many commits wait as may.
    ghost few_wait: { (s : Self) → waiting s ≤ (view s).depth };

    /// Its data has as many bytes as its shape says.
    ghost long: { (s : Self) → IsTrue tells → length (view s).state.bytes ≡ data_len (view s).shape };

    /// The ranges are those of the parts that it has logged.
    ghost outlines: { (s : Self) (t : ℕ) → IsTrue tells → (view s).is_dead ≡ false → (view s).ranges t ≡ option_map ranges_of ((view s).state.logs t) };

    /// Each of these ranges lies within one page of the data.
    ghost placed: { (s : Self) (t : ℕ) → ArePlaced (view s).shape (listed ((view s).ranges t)) };

    /// No number beyond the array's is live.
    ghost beyond: { (s : Self) (t : ℕ) → (view s).shape.numbers ≤ t → (view s).ranges t ≡ None };

    /// While it is not dead, something may be left now.
    ghost some_now: { (s : Self) → IsTrue tells → (view s).is_dead ≡ false → LeavesSome (view s) };

    /// What may be left now counts as left since each moment up to now.
    ghost counts_now: { (s : Self) (t : ℕ) (image : List ℕ) → IsTrue tells → t ≤ (view s).moment → (view s).left_since (view s).moment image → (view s).left_since t image };

    /// While it is not dead, whatever may be left now opens with the data.
    ghost only_now: { (s : Self) (image : List ℕ) → IsTrue tells → (view s).is_dead ≡ false → (view s).left_since (view s).moment image → opens (view s).shape image (view s).state.bytes };

    /// An image opens with only one data.
    ghost one_data: { (shape : Shape) (image a b : List ℕ) → opens shape image a → opens shape image b → a ≡ b };
}
