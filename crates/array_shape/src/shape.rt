// The numbers of an array, and its places.
ghost use Rattle.std.specs.Prelude.{◌≡◌, ◌/◌, ◌%◌, ◌<◌};
ghost use Rattle.array_shape.specs.Numbers.{AreInRange};

use crate::bad_shape::{BadShape, ShapeNumber};
use crate::parts::Parts;
use crate::place::Place;

/// Bytes of the header, with which the medium begins.
pub const HEADER_LEN: u64 = 512;

/// Bytes of a row.
pub const ROW_LEN: u64 = 16;

/// Bytes of a cell's head, with which it begins.
pub const HEAD_LEN: u64 = 16;

/// Bytes of a cell: its head, and room for a page.
pub const CELL_LEN: u64 = HEAD_LEN + PAGE_LEN;

/// Bytes of a page.
pub const PAGE_LEN: u64 = 512;

/// The most loggers of an array.
pub const LOGGERS_MAX: u8 = 8;

/// The most transaction numbers of an array.
pub const NUMBERS_MAX: u8 = 64;

/// The fewest log entries per transaction number and logger.
pub const ENTRIES_MIN: u16 = 8;

/// The most log entries per transaction number and logger.
pub const ENTRIES_MAX: u16 = 64;

/// The fewest pages per logger.
pub const PAGES_MIN: u32 = 4;

/// The most pages per logger.
pub const PAGES_MAX: u32 = 4096;

/// The four numbers of an array. Every value of the type has them in range.
#[derive(Clone, Copy, Debug, PartialEq, Eq)]
pub struct Shape {
    /// Loggers, 1 to 8.
    pub loggers: u8,
    /// Transaction numbers, 1 to 64.
    pub numbers: u8,
    /// Log entries per transaction number and logger, 8 to 64.
    pub entries: u16,
    /// Pages of 512 bytes per logger, even, 4 to 4,096.
    pub pages: u32,
    ghost in_range: { AreInRange loggers numbers entries pages },
}

impl Shape {
    ghost use Rattle.std.specs.Prelude.{◌≡◌, ◌↔◌, ◌+◌, ◌*◌, ◌/◌, ◌≤◌, ◌<◌, IsOk, IfOk, IfErr, All};
    ghost use Rattle.array_shape.specs.Numbers.{AreInRange, IsFirstBad};
    ghost use Rattle.array_shape.specs.Places.{HasNumbers, data_len, media_len, page_count, row_at, cell_at, data_at, region_len, region_at, logger_of, offset_of, place_of, IsPlaced};
    ghost use Rattle.array_shape.specs.Parts.{parts_of, Tile, AreCutAtPages, IsPartOf};

    /// The shape with these numbers, or the first of them that is out of range.
    pub fn new(loggers: u8, numbers: u8, entries: u16, pages: u32) -> Result<Shape, BadShape>
        ensures good { IsOk result ↔ AreInRange loggers numbers entries pages }
        ensures shape { IfOk result (HasNumbers loggers numbers entries pages) }
        ensures bad { IfErr result (λ bad. IsFirstBad loggers numbers entries pages bad.which bad.given) }
    {
        if loggers < 1 || loggers > LOGGERS_MAX {
            return Err(BadShape {
                which: ShapeNumber::Loggers,
                given: u64::from(loggers),
            });
        }
        if numbers < 1 || numbers > NUMBERS_MAX {
            return Err(BadShape {
                which: ShapeNumber::Numbers,
                given: u64::from(numbers),
            });
        }
        if entries < ENTRIES_MIN || entries > ENTRIES_MAX {
            return Err(BadShape {
                which: ShapeNumber::Entries,
                given: u64::from(entries),
            });
        }
        if pages < PAGES_MIN || pages > PAGES_MAX || pages % 2 != 0 {
            return Err(BadShape {
                which: ShapeNumber::Pages,
                given: u64::from(pages),
            });
        }
        Ok(Shape {
            loggers,
            numbers,
            entries,
            pages,
        })
    }

    /// How many pages the data has.
    pub fn page_count(&self) -> u64
        ensures { result ≡ page_count self.now }
    {
        u64::from(self.loggers) * u64::from(self.pages)
    }

    /// How many pages half of the data has.
    pub fn half_page_count(&self) -> u32
        ensures half { result ≡ page_count self.now / 2 }
        ensures whole { result + result ≡ page_count self.now }
        ensures some { 2 ≤ result }
        ensures most { result ≤ 16384 }
    {
        (self.page_count() / 2) as u32
    }

    /// The length of the data in bytes.
    pub fn data_len(&self) -> u64
        ensures { result ≡ data_len self.now }
    {
        PAGE_LEN * self.page_count()
    }

    /// The length of the array's medium in bytes.
    pub fn media_len(&self) -> u64
        ensures { result ≡ media_len self.now }
    {
        HEADER_LEN + u64::from(self.loggers) * self.region_len()
    }

    /// Where on the medium the row of the transaction number `tid` at a logger begins.
    pub fn row_at(&self, logger: u8, tid: u8) -> u64
        requires logger { logger < self.now.loggers }
        requires tid { tid < self.now.numbers }
        ensures { result ≡ row_at self.now logger tid }
    {
        self.region_at(logger) + ROW_LEN * u64::from(tid)
    }

    /// Where on the medium a cell of the transaction number `tid` at a logger begins.
    pub fn cell_at(&self, logger: u8, tid: u8, entry: u16) -> u64
        requires logger { logger < self.now.loggers }
        requires tid { tid < self.now.numbers }
        requires entry { entry < self.now.entries }
        ensures { result ≡ cell_at self.now logger tid entry }
    {
        let cell = u64::from(tid) * u64::from(self.entries) + u64::from(entry);
        self.region_at(logger) + ROW_LEN * u64::from(self.numbers) + CELL_LEN * cell
    }

    /// Where on the medium the pages of a logger begin.
    pub fn data_at(&self, logger: u8) -> u64
        requires { logger < self.now.loggers }
        ensures { result ≡ data_at self.now logger }
    {
        let cells = u64::from(self.numbers) * u64::from(self.entries);
        self.region_at(logger) + ROW_LEN * u64::from(self.numbers) + CELL_LEN * cells
    }

    /// The logger that has an address of the data, and the offset within that logger's data.
    pub fn place(&self, addr: u64) -> Place
        requires { addr < data_len self.now }
        ensures logger { result.logger ≡ logger_of self.now addr }
        ensures offset { result.offset ≡ offset_of self.now addr }
    {
        let (turn, logger) = dealt(addr / PAGE_LEN, self.loggers);
        Place {
            logger: logger as u8,
            offset: PAGE_LEN * turn + addr % PAGE_LEN,
        }
    }

    /// Where on the medium the byte of an address of the data is.
    pub fn byte_at(&self, addr: u64) -> u64
        requires { addr < data_len self.now }
        ensures { result ≡ place_of self.now addr }
    {
        let place = self.place(addr);
        self.data_at(place.logger) + place.offset
    }

    /// The parts of a range of the data, which is cut at the multiples of 512.
    pub fn parts(&self, addr: u64, len: u64) -> Parts
        requires { addr + len ≤ data_len self.now }
        ensures parts { result ≡ parts_of self.now addr len }
        // They follow one another without a gap, and each lies in one page of its logger.
        ensures tile { Tile addr len (parts_of self.now addr len) }
        ensures cut { AreCutAtPages (parts_of self.now addr len) }
        ensures placed { All (IsPartOf self.now) (parts_of self.now addr len) }
    {
        Parts::new(*self, addr, len)
    }

    fn region_len(&self) -> u64
        ensures { result ≡ region_len self.now }
    {
        let cells = u64::from(self.numbers) * u64::from(self.entries);
        ROW_LEN * u64::from(self.numbers) + CELL_LEN * cells + PAGE_LEN * u64::from(self.pages)
    }

    fn region_at(&self, logger: u8) -> u64
        requires { logger < self.now.loggers }
        ensures { result ≡ region_at self.now logger }
    {
        HEADER_LEN + u64::from(logger) * self.region_len()
    }
}

// Pages are dealt to the loggers by turns: in which turn this one, and to which logger. A division by a constant is far cheaper than one by
// a number that is known at run time alone, and each read and write of the data needs one.
fn dealt(page: u64, loggers: u8) -> (u64, u64)
    requires { 0 < loggers }
    ensures turn { result.0 ≡ page / loggers }
    ensures logger { result.1 ≡ page % loggers }
{
    match loggers {
        1 => (page, 0),
        2 => (page / 2, page % 2),
        4 => (page / 4, page % 4),
        8 => (page / 8, page % 8),
        _ => (page / u64::from(loggers), page % u64::from(loggers)),
    }
}

/// Four loggers, 8 transaction numbers, 16 entries per number and logger, and 64 pages per logger.
impl Default for Shape {
    ghost use Rattle.array_shape.specs.Places.{HasNumbers};

    ghost is_default = { HasNumbers 4 8 16 64 };

    fn default() -> Shape {
        Shape {
            loggers: 4,
            numbers: 8,
            entries: 16,
            pages: 64,
        }
    }
}
