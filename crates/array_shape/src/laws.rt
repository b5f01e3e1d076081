// Laws of the places of an array: each follows from the definitions alone.
ghost use Rattle.std.specs.Prelude.{◌≡◌, ◌≢◌, ◌+◌, ◌/◌, ◌%◌, ◌<◌, ◌≤◌, ℕ, List, [], ◌∷◌, length};
ghost use Rattle.mars_base.specs.Bytes.{put};
ghost use Rattle.array_shape.specs.Places.{logger_of, place_of, data_len};
ghost use Rattle.array_shape.specs.Areas.{Area, page, HasArea, area_at, IsInMedia, AreApart};
ghost use Rattle.array_shape.specs.Parts.{parts_of_write};
ghost use Rattle.array_shape.specs.Logged.{applied};

use crate::shape::Shape;

/// Each row, cell and page of an array lies on its medium behind the header, and no two of them share a byte.
pub fn areas_are_apart(shape: &Shape)
    ensures inside { (a : Area) → HasArea shape.now a → IsInMedia shape.now a }
    ensures apart { (a b : Area) → HasArea shape.now a → HasArea shape.now b → a ≢ b → AreApart shape.now a b }
{}

/// Each address of the data has a byte of its own, in a page of its logger.
pub fn addresses_are_apart(shape: &Shape)
    ensures apart { (a b : ℕ) → a < data_len shape.now → b < data_len shape.now → place_of shape.now a ≡ place_of shape.now b → a ≡ b }
    ensures pages { (a : ℕ) → a < data_len shape.now →
        (let p = page (logger_of shape.now a) (a / 512 / shape.now.loggers) in HasArea shape.now p × (place_of shape.now a ≡ area_at shape.now p + a % 512)) }
{}

/// The parts of a write, written in their order, are the write. A write within one page is one part.
pub fn parts_are_the_write()
    ensures written { (addr : ℕ) (bytes old : List ℕ) → addr + length bytes ≤ length old → applied (parts_of_write addr bytes) old ≡ put old addr bytes }
    ensures one { (addr : ℕ) (bytes : List ℕ) → 0 < length bytes → addr % 512 + length bytes ≤ 512 → parts_of_write addr bytes ≡ (addr, bytes) ∷ [] }
{}
