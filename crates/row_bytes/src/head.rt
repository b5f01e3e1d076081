// The head of a cell.
ghost use Rattle.std.specs.Prelude.{◌≡◌};
ghost use Rattle.row_bytes.specs.Said.{head_said};
ghost use Rattle.row_bytes.specs.Written.{head_bytes};

use byteorder::{ByteOrder, LittleEndian};

/// What the 16 bytes before a cell's data say: the address where the data is to go, and its length in bytes.
#[derive(Clone, Copy, Debug, PartialEq, Eq)]
pub struct Head {
    pub addr: u64,
    pub len: u16,
}

/// What the bytes of a head say. Bytes 10 to 15 are ignored.
pub fn read_head(bytes: &[u8; 16]) -> Head
    ensures { result ≡ head_said bytes.now }
{
    Head {
        addr: LittleEndian::read_u64(bytes),
        len: LittleEndian::read_u16(&bytes[8..]),
    }
}

/// Writes the bytes of a head.
pub fn write_head(head: &Head, out: &mut [u8; 16])
    ensures written { out.new ≡ head_bytes head.now }
    ensures reads_back { head_said out.new ≡ head.now }
{
    let Head { addr, len } = *head;
    out.fill(0);
    LittleEndian::write_u64(out, addr);
    LittleEndian::write_u16(&mut out[8..], len);
}
