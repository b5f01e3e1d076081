// Reads and writes of one logger's region.
ghost use Rattle.std.specs.Prelude.{◌≡◌, ◌+◌, ◌≤◌, ◌<◌, ◌++◌, length, take};
ghost use Rattle.array_shape.specs.Parts.{part_of_write};
ghost use Rattle.row_bytes.specs.Written.{head_bytes};
ghost use Rattle.array_image.specs.Image.{cell_head};

use array_shape::{HEAD_LEN, PAGE_LEN, Part, Shape};
use mars_base::Failed;
use pcm_media::Media;
use row_bytes::{Head, Row, read_head, vote_byte, write_head, write_row};

/// One logger of an array. It has a row for each transaction number, the cells of each, and its share of the pages.
#[derive(Clone, Copy, Debug, PartialEq, Eq)]
pub struct Logger {
    pub shape: Shape,
    pub number: u8,
    ghost there: { number < shape.loggers },
}

impl Logger {
    ghost use Rattle.std.specs.Prelude.{◌≡◌, ◌↔◌, ◌+◌, ◌*◌, ◌≤◌, ◌<◌, ℕ, [], ◌∷◌, drop, length, true, false};
    ghost use Rattle.std.specs.Prelude.{IsTrue, IsOk, IfOk, OnOk, OnErr};
    ghost use Rattle.mars_base.specs.Bytes.{put};
    ghost use Rattle.mars_base.specs.Costs.{Costs};
    ghost use Rattle.pcm_media.specs.Images.{written};
    ghost use Rattle.pcm_media.specs.View.{Writes};
    ghost use Rattle.array_shape.specs.Places.{media_len, data_len, row_at, cell_at, place_of};
    ghost use Rattle.row_bytes.specs.Written.{row_rest, vote_byte};
    ghost use Rattle.array_shape.specs.Logged.{applied, places_of, IsOwned};
    ghost use Rattle.array_image.specs.Image.{row_of, cell_of, cell_head, cell_part, parts_from, data_of, IsGoodCell};
    ghost use Rattle.logger.specs.Cells.{cell_writes, in_media};

    /// The logger with this number.
    pub fn new(shape: Shape, number: u8) -> Logger
        requires { number < shape.loggers }
        ensures shape { result.shape ≡ shape }
        ensures number { result.number ≡ number }
    {
        Logger { shape, number }
    }

    /// Writes a row except for its vote: bytes 1 to 15, and never byte 0. Whether the row is voted is not looked at.
    pub fn put_row<M: Media>(self, media: &mut M, tid: u8, row: Row) -> Result<(), Failed>
        requires size { (M.view media.old).size ≡ media_len self.shape }
        requires tid { tid < self.shape.numbers }
        ensures written { IsTrue M.tells → OnOk result ((M.view media.new).content ≡
            written (row_at self.shape self.number tid + 1) (row_rest row) (M.view media.old).content) }
        ensures row { IsTrue M.tells → OnOk result (
            row_of self.shape (M.view media.new).content.bytes self.number tid ≡
            (let said = row in
            record said { voted = (row_of self.shape (M.view media.old).content.bytes self.number tid).voted })) }
        ensures costs { Costs true 1 (M.view media.old).moment (M.view media.new).moment result }
        ensures does { Writes M.tells ((row_at self.shape self.number tid + 1, 15) ∷ [])
            (M.view media.old) (M.view media.new) result }
    {
        let mut bytes = [0; 16];
        write_row(&row, &mut bytes);
        media.write(self.shape.row_at(self.number, tid) + 1, &bytes[1..])
    }

    /// Takes a vote back: byte 0 of the row of a transaction number becomes 0.
    pub fn unvote<M: Media>(self, media: &mut M, tid: u8) -> Result<(), Failed>
        requires size { (M.view media.old).size ≡ media_len self.shape }
        requires tid { tid < self.shape.numbers }
        ensures written { IsTrue M.tells → OnOk result ((M.view media.new).content ≡
            written (row_at self.shape self.number tid) (0 ∷ []) (M.view media.old).content) }
        ensures row { IsTrue M.tells → OnOk result (
            row_of self.shape (M.view media.new).content.bytes self.number tid ≡
            (let row = row_of self.shape (M.view media.old).content.bytes self.number tid in
            record row { voted = false })) }
        ensures costs { Costs true 1 (M.view media.old).moment (M.view media.new).moment result }
        ensures does { Writes M.tells ((row_at self.shape self.number tid, 1) ∷ [])
            (M.view media.old) (M.view media.new) result }
    {
        self.set_vote(media, tid, false)
    }

    /// Votes or takes a vote back.
    pub fn set_vote<M: Media>(self, media: &mut M, tid: u8, voted: bool) -> Result<(), Failed>
        requires size { (M.view media.old).size ≡ media_len self.shape }
        requires tid { tid < self.shape.numbers }
        ensures written { IsTrue M.tells → OnOk result ((M.view media.new).content ≡
            written (row_at self.shape self.number tid) (vote_byte voted ∷ []) (M.view media.old).content) }
        ensures row { IsTrue M.tells → OnOk result (
            row_of self.shape (M.view media.new).content.bytes self.number tid ≡
            (let row = row_of self.shape (M.view media.old).content.bytes self.number tid in
            record row { voted = voted })) }
        ensures costs { Costs true 1 (M.view media.old).moment (M.view media.new).moment result }
        ensures does { Writes M.tells ((row_at self.shape self.number tid, 1) ∷ [])
            (M.view media.old) (M.view media.new) result }
    {
        media.write(self.shape.row_at(self.number, tid), &[vote_byte(voted)])
    }

    /// Replaces bytes within the data of a cell, from `at` on.
    pub fn edit<M: Media>(
        self,
        media: &mut M,
        tid: u8,
        entry: u16,
        at: u16,
        bytes: &[u8],
    ) -> Result<(), Failed>
        requires size { (M.view media.old).size ≡ media_len self.shape }
        requires tid { tid < self.shape.numbers }
        requires entry { entry < self.shape.entries }
        requires within { at + length bytes.now ≤ 512 }
        ensures written { IsTrue M.tells → OnOk result ((M.view media.new).content ≡
            written (cell_at self.shape self.number tid entry + 16 + at) bytes.now (M.view media.old).content) }
        ensures cell { IsTrue M.tells → OnOk result (
            cell_of self.shape (M.view media.new).content.bytes self.number tid entry ≡
            put (cell_of self.shape (M.view media.old).content.bytes self.number tid entry) (16 + at) bytes.now) }
        ensures costs { Costs true 1 (M.view media.old).moment (M.view media.new).moment result }
        ensures does { Writes M.tells ((cell_at self.shape self.number tid entry + 16 + at, length bytes.now) ∷ [])
            (M.view media.old) (M.view media.new) result }
    {
        let cell = self.shape.cell_at(self.number, tid, entry);
        media.write(cell + HEAD_LEN + u64::from(at), bytes)
    }

    /// Reads a cell: returns what its head says, and puts the 512 bytes of its data into `buf`. Of these the first `len` count.
    pub fn read_entry<M: Media>(
        self,
        media: &mut M,
        tid: u8,
        entry: u16,
        buf: &mut [u8; 512],
    ) -> Result<Head, Failed>
        requires size { (M.view media.old).size ≡ media_len self.shape }
        requires tid { tid < self.shape.numbers }
        requires entry { entry < self.shape.entries }
        ensures head { IsTrue M.tells → IfOk result (λ head. head ≡
            cell_head (cell_of self.shape (M.view media.old).content.bytes self.number tid entry)) }
        ensures bytes { IsTrue M.tells → OnOk result (buf.new ≡
            drop 16 (cell_of self.shape (M.view media.old).content.bytes self.number tid entry)) }
        ensures unread { OnErr result (buf.new ≡ buf.old) }
        ensures costs { Costs true 1 (M.view media.old).moment (M.view media.new).moment result }
        ensures does { Writes M.tells [] (M.view media.old) (M.view media.new) result }
    {
        let mut cell = [0; 528];
        self.read_cell(media, tid, entry, &mut cell)?;
        buf.copy_from_slice(&cell[16..]);
        Ok(head_of(&cell))
    }

    /// Writes the parts in the cells `first` to `first + count - 1` of a transaction number to their addresses, one after another.
    ///
    /// A cell that holds no part of this logger is skipped. Only a medium that does not tell its bytes may have one.
    pub fn apply<M: Media>(
        self,
        media: &mut M,
        tid: u8,
        first: u16,
        count: u16,
    ) -> Result<(), Failed>
        requires size { (M.view media.old).size ≡ media_len self.shape }
        requires tid { tid < self.shape.numbers }
        requires entries { first + count ≤ self.shape.entries }
        requires good { IsTrue M.tells → (e : ℕ) → first ≤ e → e < first + count →
            IsGoodCell self.shape self.number (cell_of self.shape (M.view media.old).content.bytes self.number tid e) }
        ensures written { IsTrue M.tells → OnOk result ((M.view media.new).content.bytes ≡
            (let old = (M.view media.old).content.bytes in
            applied (in_media self.shape (parts_from self.shape old self.number tid first count)) old)) }
        ensures data_after { IsTrue M.tells → OnOk result (data_of self.shape (M.view media.new).content.bytes ≡
            (let old = (M.view media.old).content.bytes in
            applied (parts_from self.shape old self.number tid first count) (data_of self.shape old))) }
        ensures costs { Costs M.tells (2 * count) (M.view media.old).moment (M.view media.new).moment result }
        ensures does { Writes M.tells
            (places_of self.shape (parts_from self.shape (M.view media.old).content.bytes self.number tid first count))
            (M.view media.old) (M.view media.new) result }
    {
        for entry in first..first + count {
            self.apply_cell(media, tid, entry)?;
        }
        Ok(())
    }

    pub(crate) fn put_cell<M: Media>(
        self,
        media: &mut M,
        tid: u8,
        entry: u16,
        addr: u64,
        bytes: &[u8],
    ) -> Result<(), Failed>
        requires size { (M.view media.old).size ≡ media_len self.shape }
        requires tid { tid < self.shape.numbers }
        requires entry { entry < self.shape.entries }
        requires long { length bytes.now ≤ 512 }
        ensures written { IsTrue M.tells → OnOk result ((M.view media.new).content.bytes ≡
            applied (cell_writes self.shape self.number tid entry ((addr, bytes.now) ∷ []))
            (M.view media.old).content.bytes) }
        ensures costs { Costs true 1 (M.view media.old).moment (M.view media.new).moment result }
        ensures does { Writes M.tells ((cell_at self.shape self.number tid entry, 528) ∷ [])
            (M.view media.old) (M.view media.new) result }
    {
        let mut cell = [0; 528];
        fill_cell(&mut cell, addr, bytes);
        let len = 16 + bytes.len();
        media.write(self.shape.cell_at(self.number, tid, entry), &cell[..len])
    }

    // Fills the buffer with a cell.
    fn read_cell<M: Media>(
        self,
        media: &mut M,
        tid: u8,
        entry: u16,
        cell: &mut [u8; 528],
    ) -> Result<(), Failed>
        requires size { (M.view media.old).size ≡ media_len self.shape }
        requires tid { tid < self.shape.numbers }
        requires entry { entry < self.shape.entries }
        ensures cell { IsTrue M.tells → OnOk result (cell.new ≡
            cell_of self.shape (M.view media.old).content.bytes self.number tid entry) }
        ensures costs { Costs true 1 (M.view media.old).moment (M.view media.new).moment result }
        ensures does { Writes M.tells [] (M.view media.old) (M.view media.new) result }
    {
        media.read(self.shape.cell_at(self.number, tid, entry), cell)
    }

    fn apply_cell<M: Media>(self, media: &mut M, tid: u8, entry: u16) -> Result<(), Failed>
        requires size { (M.view media.old).size ≡ media_len self.shape }
        requires tid { tid < self.shape.numbers }
        requires entry { entry < self.shape.entries }
        requires good { IsTrue M.tells →
            IsGoodCell self.shape self.number (cell_of self.shape (M.view media.old).content.bytes self.number tid entry) }
        ensures written { IsTrue M.tells → OnOk result ((M.view media.new).content.bytes ≡
            (let part = cell_part (cell_of self.shape (M.view media.old).content.bytes self.number tid entry) in
            put (M.view media.old).content.bytes (place_of self.shape part.0) part.1)) }
        ensures costs { Costs M.tells 2 (M.view media.old).moment (M.view media.new).moment result }
        ensures does { Writes M.tells
            (let cell = cell_of self.shape (M.view media.old).content.bytes self.number tid entry in
            places_of self.shape (cell_part cell ∷ []))
            (M.view media.old) (M.view media.new) result }
    {
        let mut cell = [0; 528];
        self.read_cell(media, tid, entry, &mut cell)?;
        self.write_part(media, &cell)
    }

    // Writes the part that a cell holds to its address. If it holds none of this logger, no call is made.
    fn write_part<M: Media>(self, media: &mut M, cell: &[u8; 528]) -> Result<(), Failed>
        requires size { (M.view media.old).size ≡ media_len self.shape }
        ensures none { ¬ IsGoodCell self.shape self.number cell.now → IsOk result × (media.new ≡ media.old) }
        ensures written { IsTrue M.tells → IsGoodCell self.shape self.number cell.now → OnOk result ((M.view media.new).content.bytes ≡
            (let part = cell_part cell.now in put (M.view media.old).content.bytes (place_of self.shape part.0) part.1)) }
        ensures costs { IsGoodCell self.shape self.number cell.now → Costs true 1 (M.view media.old).moment (M.view media.new).moment result }
        ensures most { (M.view media.new).moment ≤ (M.view media.old).moment + 1 }
        ensures does { Writes M.tells (places_of self.shape (cell_part cell.now ∷ [])) (M.view media.old) (M.view media.new) result }
    {
        let head = head_of(cell);
        if !self.has_part(head) {
            return Ok(());
        }
        media.write(
            self.shape.byte_at(head.addr),
            &cell[16..16 + usize::from(head.len)],
        )
    }

    /// Whether the range that this head says lies in one page of this logger.
    pub fn has_part(self, head: Head) -> bool
        ensures { IsTrue result ↔ IsOwned self.shape self.number head.addr head.len }
    {
        let data_len = self.shape.data_len();
        let len = u64::from(head.len);
        if head.addr >= data_len || len == 0 {
            return false;
        }
        head.addr % PAGE_LEN + len <= PAGE_LEN
            && head.addr + len <= data_len
            && self.shape.place(head.addr).logger == self.number
    }
}

// The bytes of a write that belong to one of its parts.
pub(crate) fn bytes_of(part: Part, addr: u64, bytes: &[u8]) -> &[u8]
    requires from { addr ≤ part.addr }
    requires to { part.addr + part.len ≤ addr + length bytes.now }
    ensures { result.now ≡ (part_of_write addr bytes.now part).1 }
{
    let from = (part.addr - addr) as usize;
    &bytes[from..from + usize::from(part.len)]
}

// Puts these bytes for an address into a cell.
fn fill_cell(cell: &mut [u8; 528], addr: u64, bytes: &[u8])
    requires { length bytes.now ≤ 512 }
    ensures { take (16 + length bytes.now) cell.new ≡ head_bytes (record { addr = addr; len = length bytes.now }) ++ bytes.now }
{
    let head = Head {
        addr,
        len: bytes.len() as u16,
    };
    let mut head_bytes = [0; 16];
    write_head(&head, &mut head_bytes);
    cell[..16].copy_from_slice(&head_bytes);
    cell[16..16 + bytes.len()].copy_from_slice(bytes);
}

fn head_of(cell: &[u8; 528]) -> Head
    ensures { result ≡ cell_head cell.now }
{
    let mut head = [0; 16];
    head.copy_from_slice(&cell[..16]);
    read_head(&head)
}
