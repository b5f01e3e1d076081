// The entries of one number, laid over bytes of the data.
ghost use Rattle.std.specs.Prelude.{◌≡◌, ◌+◌, ◌≤◌, ◌<◌, ◌^◌, [], ◌∷◌, List, ℕ, All, true, length, take, count_by, IsTrue, OnOk, nat_lt, max, min};
ghost use Rattle.mars_base.specs.Bytes.{range, put};
ghost use Rattle.mars_base.specs.Costs.{Costs};
ghost use Rattle.pcm_media.specs.View.{Writes};
ghost use Rattle.array_shape.specs.Places.{media_len, data_len};
ghost use Rattle.array_shape.specs.Logged.{applied, ranges_of};
ghost use Rattle.write_back.specs.Entries.{IsEntry, parts_in, ranges_in};
ghost use Rattle.write_back.specs.Reading.{meets};

use crate::entry::Entry;
use array_shape::Shape;
use logger::Logger;
use mars_base::Failed;
use pcm_media::Media;

// Lays the entries of number `tid` over the bytes from `addr` on, each that has a byte of them.
pub(crate) fn lay_entries<M: Media>(
    media: &mut M,
    shape: &Shape,
    tid: u8,
    entries: &[Entry],
    addr: u64,
    buf: &mut [u8],
) -> Result<(), Failed>
    requires size { (M.view media.old).size ≡ media_len shape.now }
    requires tid { tid < shape.now.numbers }
    requires range { addr + length buf.old ≤ data_len shape.now }
    requires entries { All (IsEntry shape.now) entries.now }
    requires held { IsTrue M.tells → ranges_of (parts_in shape.now (M.view media.old).content.bytes tid entries.now) ≡ ranges_in entries.now }
    ensures bytes { IsTrue M.tells → (whole : List ℕ) → length whole ≡ data_len shape.now → buf.old ≡ range whole addr (length buf.old)
        → OnOk result (buf.new ≡ range (applied (parts_in shape.now (M.view media.old).content.bytes tid entries.now) whole) addr (length buf.old)) }
    ensures costs { Costs true (count_by (meets addr (length buf.old)) entries.now) (M.view media.old).moment (M.view media.new).moment result }
    ensures does { Writes M.tells [] (M.view media.old) (M.view media.new) result }
{
    for entry in entries {
        lay_entry(media, shape, tid, *entry, addr, buf)?;
    }
    Ok(())
}

// Whether the part of an entry has one of the `len` bytes from `addr` on.
fn has_byte_of(entry: Entry, addr: u64, len: u64) -> bool
    requires part { entry.addr + entry.len < 2 ^ 64 }
    requires range { addr + len < 2 ^ 64 }
    ensures { result ≡ meets addr len entry }
{
    entry.addr.max(addr) < (entry.addr + u64::from(entry.len)).min(addr + len)
}

// Reads the cell of an entry, and lays its part over the bytes from `addr` on, if it has one of them.
fn lay_entry<M: Media>(
    media: &mut M,
    shape: &Shape,
    tid: u8,
    entry: Entry,
    addr: u64,
    buf: &mut [u8],
) -> Result<(), Failed>
    requires size { (M.view media.old).size ≡ media_len shape.now }
    requires tid { tid < shape.now.numbers }
    requires range { addr + length buf.old ≤ data_len shape.now }
    requires entry { IsEntry shape.now entry }
    requires held { IsTrue M.tells → ranges_of (parts_in shape.now (M.view media.old).content.bytes tid (entry ∷ [])) ≡ ranges_in (entry ∷ []) }
    ensures bytes { IsTrue M.tells → (whole : List ℕ) → length whole ≡ data_len shape.now → buf.old ≡ range whole addr (length buf.old)
        → OnOk result (buf.new ≡ range (applied (parts_in shape.now (M.view media.old).content.bytes tid (entry ∷ [])) whole) addr (length buf.old)) }
    ensures costs { Costs true (count_by (meets addr (length buf.old)) (entry ∷ [])) (M.view media.old).moment (M.view media.new).moment result }
    ensures does { Writes M.tells [] (M.view media.old) (M.view media.new) result }
{
    if !has_byte_of(entry, addr, buf.len() as u64) {
        return Ok(());
    }
    let logger = Logger::new(*shape, shape.place(entry.addr).logger);
    let mut cell = [0; 512];
    logger.read_entry(media, tid, entry.cell, &mut cell)?;
    copy_part(entry, &cell, addr, buf);
    Ok(())
}

// Copies what a part has of the bytes from `addr` on. The cell begins with the part.
fn copy_part(entry: Entry, cell: &[u8; 512], addr: u64, buf: &mut [u8])
    requires page { entry.len ≤ 512 }
    requires part { entry.addr + entry.len < 2 ^ 64 }
    requires range { addr + length buf.old < 2 ^ 64 }
    requires meets { meets addr (length buf.old) entry ≡ true }
    ensures { (whole : List ℕ) → entry.addr + entry.len ≤ length whole → addr + length buf.old ≤ length whole → buf.old ≡ range whole addr (length buf.old)
        → buf.new ≡ range (put whole entry.addr (take entry.len cell.now)) addr (length buf.old) }
{
    let start = entry.addr.max(addr);
    let end = (entry.addr + u64::from(entry.len)).min(addr + buf.len() as u64);
    let count = (end - start) as usize;
    let from = (start - entry.addr) as usize;
    let to = (start - addr) as usize;
    buf[to..to + count].copy_from_slice(&cell[from..from + count]);
}
