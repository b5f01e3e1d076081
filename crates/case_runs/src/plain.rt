// Raw commands over the plain store.
ghost use Rattle.std.specs.Prelude.{◌≡◌, false, IfOk};

use crate::image::media_of;
use array_shape::Shape;
use case_files::{CaseFault, Ran, Report, Run};
use eaw_device::Eaw;
use eaw_face::EawStore;
use eaw_script::answer_commands;
use memory_eaw::MemoryEaw;
use outside::MemorySink;
use pcm_media::Media;
use std::alloc::Global;

// Room for as many changes of the data as most scripts make, and for their answers.
const CHANGES: u64 = 4096;

const TEXT: u64 = 4096;

/// Whether raw commands were answered to their end.
pub fn has_twin(run: &Run, ran: &Ran) -> bool {
    match run.words.as_slice() {
        [word] => ran.status == 0 && word.as_str() == "eaw",
        _ => false,
    }
}

/// Compares a run of raw commands over an image with the same commands over a plain store with that image's data: the answers
/// and the data behind them are the same.
pub fn compare_plain(
    alloc: Global,
    run: &Run,
    before: &[u8],
    ran: &Ran,
    report: &mut Report,
) -> Result<(), CaseFault> {
    let (sink, mut plain) = answered(alloc, &run.input, plain_store(alloc, before)?)?;
    let was = ran.sink.written();
    if sink.written() != was {
        return Err(report.differs("the plain store's answers", sink.written(), was));
    }
    compare_data(alloc, &mut plain, ran.media.bytes(), report)
}

fn compare_data(
    alloc: Global,
    plain: &mut MemoryEaw,
    image: &[u8],
    report: &mut Report,
) -> Result<(), CaseFault> {
    let wanted = data_of(alloc, plain)?;
    let was = data_in(alloc, media_of(alloc, image)?)?;
    if wanted != was {
        return Err(report.differs("the plain store's data", &wanted, &was));
    }
    Ok(())
}

// The answers of a plain store, and the store behind them.
fn answered(
    alloc: Global,
    input: &[u8],
    plain: MemoryEaw,
) -> Result<(MemorySink, MemoryEaw), CaseFault>
    requires { (⟦<MemoryEaw as EawStore>⟧.view plain).is_dead ≡ false }
{
    let mut sink = MemorySink::new(alloc, TEXT)?;
    let (_, plain) = answer_commands(alloc, input, &mut sink, plain);
    Ok((sink, plain))
}

// The data with which an image opens.
fn data_in<M: Media + Drop>(alloc: Global, image: M) -> Result<Vec<u8>, CaseFault> {
    let (_shape, bytes) = opened(alloc, image)?;
    Ok(bytes)
}

// The shape and the data with which an image opens.
fn opened<M: Media + Drop>(alloc: Global, image: M) -> Result<(Shape, Vec<u8>), CaseFault> {
    let Ok(mut device) = Eaw::attach(alloc, image) else {
        return Err(CaseFault::Opening);
    };
    Ok((device.shape(), data_of(alloc, &mut device)?))
}

// A plain store with the data that an image opens with.
fn plain_store(alloc: Global, image: &[u8]) -> Result<MemoryEaw, CaseFault>
    ensures { IfOk result (λ store. (⟦<MemoryEaw as EawStore>⟧.view store).is_dead ≡ false) }
{
    let (shape, bytes) = opened(alloc, media_of(alloc, image)?)?;
    if bytes.len() as u64 != shape.data_len() {
        return Err(CaseFault::Opening);
    }
    Ok(MemoryEaw::new(alloc, shape, &bytes, CHANGES)?)
}

fn data_of<S: EawStore>(alloc: Global, store: &mut S) -> Result<Vec<u8>, CaseFault> {
    let mut bytes = vec![in alloc; 0; store.shape().data_len() as usize]?;
    match store.read(0, &mut bytes) {
        Ok(()) => Ok(bytes),
        Err(_) => Err(CaseFault::Opening),
    }
}
