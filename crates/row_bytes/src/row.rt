// The row of a transaction number at one logger.
ghost use Rattle.std.specs.Prelude.{◌≡◌};
ghost use Rattle.row_bytes.specs.Said.{row_said};
ghost use Rattle.row_bytes.specs.Written.{row_bytes, vote_byte};

use byteorder::{ByteOrder, LittleEndian};

// The vote byte of a voted row. A row with any other vote byte is not voted.
const VOTED: u8 = 0xC3;

/// What the 16 bytes of a row say: the share of one number at one logger in a commit.
#[derive(Clone, Copy, Debug, PartialEq, Eq)]
pub struct Row {
    pub voted: bool,
    /// The loggers that have rows of the commit, one bit each.
    pub mask: u8,
    /// The first entry of its cells.
    pub first: u16,
    /// How many cells it has here.
    pub count: u16,
    /// The numbers that are committed together, one bit each; 0 stands for this number alone.
    pub group: u64,
    /// The place of the commit among those that wait for their write-back; 0 if it does not wait.
    pub order: u16,
}

/// What the bytes of a row say.
pub fn read_row(bytes: &[u8; 16]) -> Row
    ensures { result ≡ row_said bytes.now }
{
    Row {
        voted: bytes[0] == VOTED,
        mask: bytes[1],
        first: LittleEndian::read_u16(&bytes[2..]),
        count: LittleEndian::read_u16(&bytes[4..]),
        group: LittleEndian::read_u64(&bytes[6..]),
        order: LittleEndian::read_u16(&bytes[14..]),
    }
}

/// The vote byte of a row that is voted or not.
pub fn vote_byte(voted: bool) -> u8
    ensures { result ≡ vote_byte voted }
{
    if voted { VOTED } else { 0 }
}

/// Writes the bytes of a row.
pub fn write_row(row: &Row, out: &mut [u8; 16])
    ensures written { out.new ≡ row_bytes row.now }
    ensures reads_back { row_said out.new ≡ row.now }
{
    let Row {
        voted,
        mask,
        first,
        count,
        group,
        order,
    } = *row;
    out.fill(0);
    out[0] = vote_byte(voted);
    out[1] = mask;
    LittleEndian::write_u16(&mut out[2..], first);
    LittleEndian::write_u16(&mut out[4..], count);
    LittleEndian::write_u64(&mut out[6..], group);
    LittleEndian::write_u16(&mut out[14..], order);
}
