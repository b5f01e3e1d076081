// What is left of an image, step by step.
ghost use Rattle.std.specs.Prelude.{◌≡◌, ◌+◌, ◌-◌, ◌≤◌, ◌<◌, ◌++◌, [], ℕ, length, MatchOption};
ghost use Rattle.array_image.specs.Joined.{joined};
ghost use Rattle.image_pieces.specs.Image.{IsStage, left_of, page_of, region_of, rest_of};
ghost use Rattle.image_pieces.specs.Pieces.{IsNext};

use crate::filling::{PAGES_MOST, front_piece, header_piece, pages_piece};
use crate::piece::{PIECE_LEN, Piece};
use array_shape::Shape;
use eaw_device::PageSource;

// What comes next of an image.
#[derive(Clone, Copy)]
pub enum Stage {
    Header,
    // The region of this logger. Behind the last there is none.
    Region { logger: u8 },
    // The pages of this logger, from one of them on.
    Pages { logger: u8, page: u32 },
}

// The next piece, and what comes behind it.
pub fn step<P: PageSource>(
    shape: &Shape,
    source: &P,
    stage: Stage,
    out: &mut [u8; PIECE_LEN],
) -> Option<(Piece, Stage)>
    requires stage { IsStage shape.now stage }
    requires sized { (page : ℕ) → length (P.pages source.now page) ≡ 512 }
    ensures { MatchOption result (left_of shape.now (P.pages source.now) stage ≡ [])
        (λ next. IsNext (rest_of shape.now (P.pages source.now) stage) next.0 out.new (rest_of shape.now (P.pages source.now) next.1) × IsStage shape.now next.1) }
{
    match stage {
        Stage::Header => Some((header_piece(shape, out), Stage::Region { logger: 0 })),
        Stage::Region { logger } => {
            if logger == shape.loggers {
                return None;
            }
            Some((front_piece(shape), Stage::Pages { logger, page: 0 }))
        }
        Stage::Pages { logger, page } => {
            let count = (shape.pages - page).min(PAGES_MOST);
            let piece = pages_piece(shape, source, logger, page, count, out);
            Some((piece, behind_pages(shape, logger, page + count)))
        }
    }
}

// What comes behind some pages of a logger.
fn behind_pages(shape: &Shape, logger: u8, page: u32) -> Stage
    requires logger { logger < shape.now.loggers }
    requires pages { page ≤ shape.now.pages }
    ensures stage { IsStage shape.now result }
    ensures left { (said : _) → left_of shape.now said result
        ≡ joined (page_of shape.now said logger) page (shape.now.pages - page) ++ joined (region_of shape.now said) (logger + 1) (shape.now.loggers - (logger + 1)) }
{
    if page == shape.pages {
        Stage::Region { logger: logger + 1 }
    } else {
        Stage::Pages { logger, page }
    }
}
