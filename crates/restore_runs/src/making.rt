// An array is made of what a source says.
ghost use Rattle.std.specs.Prelude.{◌≡◌, ◌≤◌, ◌^◌, ◌<◌, List, ℕ, length, IsTrue, IfOk, IsErrOf};
ghost use Rattle.array_shape.specs.declared.shape.Shape.{Shape};
ghost use Rattle.dump_text.specs.Dump.{AreTables};
ghost use Rattle.restore_runs.specs.Making.{BeginsAsArray, Makes, MakesFrom};

use crate::sizing::{half_for, shape_for};
use crate::stop::{Stop, input_stop};
use array_shape::HEADER_LEN;
use command_words::RestoreNumbers;
use dump_text::read_dump;
use history::Tables;
use history_text::count_records;
use image_pieces::ArrayImage;
use mars_base::Failed;
use outside::Source;
use pcm_media::Media;
use restoring::image_of;
use row_bytes::read_array_header;
use script_run::read_input;
use std::alloc::Global;
use table_builder::{DataImage, pages_needed};

/// An array, to be taken piece by piece.
#[derive(Drop)]
pub struct Made {
    pub image: ArrayImage<DataImage>,
    /// How many records it has.
    pub records: u64,
}

/// An array with the tables of the dump that a source gives.
pub fn make_image<S: Source>(
    alloc: Global,
    asked: &RestoreNumbers,
    source: &mut S,
) -> Result<Made, Stop>
    ensures made { (text : List ℕ) × (IsTrue S.tells → S.left source.old ≡ text) × Makes asked.now text result }
    // A source that promises not to fail is no reason.
    ensures steady { IsTrue (S.steady source.old) → IsErrOf result Stop.ReadFault → ⊥ }
{
    let text = match read_input(alloc, source) {
        Ok(text) => text,
        Err(fault) => return Err(input_stop(fault)),
    };
    make_of_text(alloc, asked, &text)
}

fn make_of_text(alloc: Global, asked: &RestoreNumbers, text: &[u8]) -> Result<Made, Stop>
    ensures made { Makes asked.now text.now result }
    ensures read { IsErrOf result Stop.ReadFault → ⊥ }
{
    match read_dump(alloc, text) {
        Ok(tables) => make_of(alloc, asked, tables),
        Err(fault) => Err(Stop::Dump(fault)),
    }
}

// An array with these tables.
fn make_of(alloc: Global, asked: &RestoreNumbers, tables: Tables) -> Result<Made, Stop>
    requires { AreTables tables }
    ensures { MakesFrom asked.now tables result }
{
    let fill = usize::from(asked.fill);
    let records = count_records(tables.as_slice())?;
    let half = half_for(pages_needed(fill, tables.as_slice()), records);
    let shape = match shape_for(asked, half) {
        Ok(shape) => shape,
        Err(bad) => return Err(Stop::Shape(bad)),
    };
    match image_of(alloc, &shape, fill, tables) {
        Ok(image) => Ok(Made { image, records }),
        Err(fault) => Err(Stop::Tables(fault)),
    }
}

/// Whether a medium begins as an array of its length does.
pub fn holds_array<M: Media>(media: &mut M) -> Result<bool, Failed>
    ensures held { IfOk result (λ held. IsTrue M.tells → IsTrue held → BeginsAsArray (M.view media.old)) }
    ensures each { IfOk result (λ held. IsTrue M.tells → BeginsAsArray (M.view media.old) → IsTrue held) }
{
    let len = media.len();
    if len < HEADER_LEN {
        return Ok(false);
    }
    let mut header = [0; 512];
    media.read(0, &mut header)?;
    match read_array_header(&header, len) {
        Ok(_) => Ok(true),
        Err(_) => Ok(false),
    }
}
