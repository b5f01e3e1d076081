// What is asked of a file.
ghost use Rattle.std.specs.Prelude.{◌≡◌, ◌≤◌, ◌⊎◌, List, ℕ, Bool, length, take, ◌+◌, Ok, IsTrue, IsOk, IfOk, MatchResult};
ghost use Rattle.media_file.specs.declared.call_faults.CallFaults.{CallFaults};
ghost use Rattle.media_file.specs.Counted.{after_answer, part_of};
ghost use Rattle.media_file.specs.Past.{Past, measured, came, stands, resized, synced, noted, IsHonest};

/// Why a call of a file did not do its work.
#[derive(Clone, Copy, Debug, PartialEq, Eq)]
pub enum CallFault {
    /// A signal came first. The call may be made again.
    Interrupted,
    Failed,
}

/// A file by its calls. Each is told the moment of the medium's call for which it is made. Only the record of calls needs it.
pub trait Calls {
    /// Whether its record is known to be that of an honest file. No contract can say that of what the system answers.
    ghost trusted: { Bool };

    /// What it held at first, and its calls since with their answers. Only clauses speak of it.
    ghost past: { Self → Past };

    /// How many of its calls failed, and how many were interrupted. A call that answers Ok leaves both as they were.
    ghost faults: { Self → CallFaults };

    /// Whether this many further calls, which write this many bytes in all, are sure to be done in full.
    ghost steady: { Self → ℕ → ℕ → Bool };

    /// Its length in bytes.
    fn len(&mut self, moment: u64) -> Result<u64, CallFault>
        ensures noted { IsTrue trusted → MatchResult result
            (λ len. past self.new ≡ noted moment (measured len) (past self.old))
            (λ _. past self.new ≡ past self.old) }
        ensures counted { faults self.new ≡ after_answer result (faults self.old) }
        ensures steady { (calls more : ℕ) → IsTrue (steady self.old (calls + 1) more) → IsOk result × IsTrue (steady self.new calls more) };

    /// Reads bytes from `at` on, and returns how many came.
    fn read_at(&mut self, moment: u64, at: u64, buf: &mut [u8]) -> Result<usize, CallFault>
        ensures count { IfOk result (λ count. count ≤ length buf.old) }
        ensures noted { IsTrue trusted → MatchResult result
            (λ count. past self.new ≡ noted moment (came at (take count buf.new)) (past self.old))
            (λ _. past self.new ≡ past self.old) }
        ensures counted { faults self.new ≡ after_answer (part_of (length buf.old) result) (faults self.old) }
        ensures steady { (calls more : ℕ) → IsTrue (steady self.old (calls + 1) more) → (result ≡ Ok (length buf.old)) × IsTrue (steady self.new calls more) };

    /// Writes bytes at `at`, and returns how many were taken. If it fails, anything may stand in their place.
    fn write_at(&mut self, moment: u64, at: u64, bytes: &[u8]) -> Result<usize, CallFault>
        ensures count { IfOk result (λ count. count ≤ length bytes.now) }
        ensures noted { IsTrue trusted → MatchResult result
            (λ count. past self.new ≡ noted moment (stands at (take count bytes.now)) (past self.old))
            (λ _. (past self.new ≡ past self.old) ⊎ ((left : List ℕ) × (length left ≡ length bytes.now) × (past self.new ≡ noted moment (stands at left) (past self.old)))) }
        ensures counted { faults self.new ≡ after_answer (part_of (length bytes.now) result) (faults self.old) }
        ensures steady { (calls more : ℕ) → IsTrue (steady self.old (calls + 1) (length bytes.now + more)) → (result ≡ Ok (length bytes.now)) × IsTrue (steady self.new calls more) };

    /// Cuts it to `len` bytes, or extends it to them with zeros.
    fn set_len(&mut self, moment: u64, len: u64) -> Result<(), CallFault>
        ensures noted { IsTrue trusted → MatchResult result
            (λ _. past self.new ≡ noted moment (resized len) (past self.old))
            (λ _. past self.new ≡ past self.old) }
        ensures counted { faults self.new ≡ after_answer result (faults self.old) }
        ensures steady { (calls more : ℕ) → IsTrue (steady self.old (calls + 1) more) → IsOk result × IsTrue (steady self.new calls more) };

    /// Waits until all that was written, and the length, are durable.
    fn sync_data(&mut self, moment: u64) -> Result<(), CallFault>
        ensures noted { IsTrue trusted → MatchResult result
            (λ _. past self.new ≡ noted moment synced (past self.old))
            (λ _. past self.new ≡ past self.old) }
        ensures counted { faults self.new ≡ after_answer result (faults self.old) }
        ensures steady { (calls more : ℕ) → IsTrue (steady self.old (calls + 1) more) → IsOk result × IsTrue (steady self.new calls more) };

    /// If it is trusted, each call was answered from what the calls before it had made of the first content.
    ghost honest: { (file : Self) → IsTrue trusted → IsHonest (past file).first (past file).calls };
}
