// The image of an array with the rows of tables, without a medium.
ghost use Rattle.std.specs.Prelude.{◌≡◌, ◌≤◌, ℕ, IfOk, IfErr, length};
ghost use Rattle.page_store.specs.Index.{index_pages_of};
ghost use Rattle.table_builder.specs.Causes.{BuildCause};
ghost use Rattle.table_builder.specs.Plan.{CanMake, planned_page};
ghost use Rattle.restoring.specs.Restored.{IsRestored};

use crate::tables::index_pages;
use array_shape::Shape;
use history::Tables;
use image_pieces::ArrayImage;
use std::alloc::Global;
use table_builder::{BuildFault, DataImage};

/// The image of an array of this shape with these tables and their rows, and nothing else, to be taken piece by piece. The first table is `main`;
/// each page of an index gets `fill` pairs.
pub fn image_of(
    alloc: Global,
    shape: &Shape,
    fill: usize,
    tables: Tables,
) -> Result<ArrayImage<DataImage>, BuildFault>
    requires some { 15 ≤ fill }
    requires most { fill ≤ 30 }
    ensures first { IfOk result (λ image. image.at ≡ 0) }
    ensures restored { IfOk result (λ image. IsRestored shape.now tables image.left) }
    ensures cause { IfErr result (BuildCause fill (index_pages_of shape.now) tables) }
{
    let data = DataImage::build(alloc, fill, index_pages(shape), tables)?;
    pages_are_whole(&data);
    Ok(ArrayImage::new(shape, data))
}

// Each page of what can be made has 512 bytes. This does nothing: only clauses need it.
fn pages_are_whole(planned: &DataImage)
    requires { CanMake planned.now }
    ensures { (page : ℕ) → length (planned_page planned.now page) ≡ 512 }
{
    let _ = planned;
}
