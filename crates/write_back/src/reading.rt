// The data with the deferred parts laid over it, read page by page.
use crate::deferred::DeferredParts;
use crate::marks::{has, mask_at, page_of};
use crate::overlay::lay_entries;
use array_shape::Part;
use mars_base::Failed;
use pcm_media::Media;
use row_bytes::Ballot;

impl DeferredParts {
    ghost use Rattle.std.specs.Prelude.{◌≡◌, ◌+◌, ◌/◌, ◌≤◌, ◌<◌, ◌&&◌, ℕ, List, [], true, length, count_by, if◌then◌else◌, IsTrue, OnOk};
    ghost use Rattle.mars_base.specs.Bytes.{range};
    ghost use Rattle.mars_base.specs.Costs.{Costs};
    ghost use Rattle.pcm_media.specs.View.{Writes};
    ghost use Rattle.array_shape.specs.Places.{media_len, data_len, IsPlaced};
    ghost use Rattle.array_shape.specs.Parts.{IsPartOf};
    ghost use Rattle.array_shape.specs.Logged.{applied};
    ghost use Rattle.array_image.specs.Image.{data_of};
    ghost use Rattle.array_shape.specs.NumberSet.{has};
    ghost use Rattle.write_back.specs.Kept.{lies_on};
    ghost use Rattle.write_back.specs.Entries.{AreHeld, parts_in};
    ghost use Rattle.write_back.specs.Turns.{in_turn, of_group, group_parts, parts_in_turn};
    ghost use Rattle.write_back.specs.Shown.{shape_of, entries_of};
    ghost use Rattle.write_back.specs.Reading.{meets, read_calls};

    /// Fills the buffer with the bytes of the data from `addr` on, once the parts of the commits with these ballots, the oldest first, are
    /// written into it. If the medium fails, nothing is said of the buffer.
    pub fn read<M: Media>(
        &self,
        media: &mut M,
        queue: &[Ballot],
        addr: u64,
        buf: &mut [u8],
    ) -> Result<(), Failed>
        requires size { (M.view media.old).size ≡ media_len (shape_of self.now) }
        requires range { addr + length buf.old ≤ data_len (shape_of self.now) }
        requires held { IsTrue M.tells → AreHeld (shape_of self.now) (M.view media.old).content.bytes (entries_of self.now) }
        ensures bytes { IsTrue M.tells → OnOk result (buf.new ≡
            (let image = (M.view media.old).content.bytes in
            range (applied (parts_in_turn (shape_of self.now) image (entries_of self.now) queue.now) (data_of (shape_of self.now) image)) addr (length buf.old))) }
        ensures costs { Costs true (read_calls (shape_of self.now) (entries_of self.now) queue.now addr (length buf.old)) (M.view media.old).moment (M.view media.new).moment result }
        ensures does { Writes M.tells [] (M.view media.old) (M.view media.new) result }
    {
        for part in self.shape.parts(addr, buf.len() as u64) {
            let from = (part.addr - addr) as usize;
            let to = from + usize::from(part.len);
            self.read_part(media, queue, part, &mut buf[from..to])?;
        }
        Ok(())
    }

    // One part of a range, which lies in one page.
    fn read_part<M: Media>(
        &self,
        media: &mut M,
        queue: &[Ballot],
        part: Part,
        buf: &mut [u8],
    ) -> Result<(), Failed>
        requires size { (M.view media.old).size ≡ media_len (shape_of self.now) }
        requires part { IsPartOf (shape_of self.now) part }
        requires len { length buf.old ≡ part.len }
        requires held { IsTrue M.tells → AreHeld (shape_of self.now) (M.view media.old).content.bytes (entries_of self.now) }
        ensures bytes { IsTrue M.tells → OnOk result (buf.new ≡
            (let image = (M.view media.old).content.bytes in
            range (applied (parts_in_turn (shape_of self.now) image (entries_of self.now) queue.now) (data_of (shape_of self.now) image)) part.addr part.len)) }
        ensures costs { Costs true (1 + count_by (meets part.addr part.len) (in_turn (shape_of self.now) (entries_of self.now) queue.now)) (M.view media.old).moment (M.view media.new).moment result }
        ensures does { Writes M.tells [] (M.view media.old) (M.view media.new) result }
    {
        media.read(self.shape.byte_at(part.addr), buf)?;
        let mask = mask_at(&self.masks, page_of(part.addr));
        if mask == 0 {
            return Ok(());
        }
        self.lay_queue(media, queue, mask, part.addr, buf)
    }

    // Lays the parts of a queue over bytes of a page that has this mask. It stands apart, so that a read that meets none stays short.
    #[inline(never)]
    fn lay_queue<M: Media>(
        &self,
        media: &mut M,
        queue: &[Ballot],
        mask: u64,
        addr: u64,
        buf: &mut [u8],
    ) -> Result<(), Failed>
        requires size { (M.view media.old).size ≡ media_len (shape_of self.now) }
        requires page { IsPlaced (shape_of self.now) addr (length buf.old) }
        requires mask { (t : ℕ) → t < 64 → has mask t ≡ lies_on (addr / 512) (entries_of self.now t) }
        requires held { IsTrue M.tells → AreHeld (shape_of self.now) (M.view media.old).content.bytes (entries_of self.now) }
        ensures bytes { IsTrue M.tells → (whole : List ℕ) → length whole ≡ data_len (shape_of self.now) → buf.old ≡ range whole addr (length buf.old)
            → OnOk result (buf.new ≡ range (applied (parts_in_turn (shape_of self.now) (M.view media.old).content.bytes (entries_of self.now) queue.now) whole) addr (length buf.old)) }
        ensures costs { Costs true (count_by (meets addr (length buf.old)) (in_turn (shape_of self.now) (entries_of self.now) queue.now)) (M.view media.old).moment (M.view media.new).moment result }
        ensures does { Writes M.tells [] (M.view media.old) (M.view media.new) result }
    {
        for ballot in queue {
            self.lay_group(media, ballot.group, mask & ballot.group, addr, buf)?;
        }
        Ok(())
    }

    // Lays the parts of a group over bytes of a page, on which just these of its numbers have parts.
    fn lay_group<M: Media>(
        &self,
        media: &mut M,
        group: u64,
        numbers: u64,
        addr: u64,
        buf: &mut [u8],
    ) -> Result<(), Failed>
        requires size { (M.view media.old).size ≡ media_len (shape_of self.now) }
        requires page { IsPlaced (shape_of self.now) addr (length buf.old) }
        requires numbers { (t : ℕ) → t < 64 → has numbers t ≡ (lies_on (addr / 512) (entries_of self.now t) && has group t) }
        requires held { IsTrue M.tells → AreHeld (shape_of self.now) (M.view media.old).content.bytes (entries_of self.now) }
        ensures bytes { IsTrue M.tells → (whole : List ℕ) → length whole ≡ data_len (shape_of self.now) → buf.old ≡ range whole addr (length buf.old)
            → OnOk result (buf.new ≡ range (applied (group_parts (shape_of self.now) (M.view media.old).content.bytes (entries_of self.now) group) whole) addr (length buf.old)) }
        ensures costs { Costs true (count_by (meets addr (length buf.old)) (of_group (shape_of self.now) (entries_of self.now) group)) (M.view media.old).moment (M.view media.new).moment result }
        ensures does { Writes M.tells [] (M.view media.old) (M.view media.new) result }
    {
        if numbers == 0 {
            return Ok(());
        }
        for tid in 0..self.shape.numbers {
            self.lay_number(media, tid, group, numbers, addr, buf)?;
        }
        Ok(())
    }

    // Those of number `tid`, if it is of the group.
    fn lay_number<M: Media>(
        &self,
        media: &mut M,
        tid: u8,
        group: u64,
        numbers: u64,
        addr: u64,
        buf: &mut [u8],
    ) -> Result<(), Failed>
        requires size { (M.view media.old).size ≡ media_len (shape_of self.now) }
        requires tid { tid < (shape_of self.now).numbers }
        requires page { IsPlaced (shape_of self.now) addr (length buf.old) }
        requires numbers { has numbers tid ≡ (lies_on (addr / 512) (entries_of self.now tid) && has group tid) }
        requires held { IsTrue M.tells → AreHeld (shape_of self.now) (M.view media.old).content.bytes (entries_of self.now) }
        ensures bytes { IsTrue M.tells → (whole : List ℕ) → length whole ≡ data_len (shape_of self.now) → buf.old ≡ range whole addr (length buf.old)
            → OnOk result (buf.new ≡ range (applied (if has group tid then parts_in (shape_of self.now) (M.view media.old).content.bytes tid (entries_of self.now tid) else []) whole) addr (length buf.old)) }
        ensures costs { Costs true (count_by (meets addr (length buf.old)) (if has group tid then entries_of self.now tid else [])) (M.view media.old).moment (M.view media.new).moment result }
        ensures does { Writes M.tells [] (M.view media.old) (M.view media.new) result }
    {
        if !has(numbers, tid) {
            return Ok(());
        }
        let entries = &self.table[usize::from(tid)].entries;
        lay_entries(media, &self.shape, tid, entries, addr, buf)
    }
}
