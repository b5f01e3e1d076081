// What the calls of the medium do.

// What a call does to the content.
#[derive(Clone, Copy, Drop)]
pub enum Change<'a> {
    Write { at: u64, bytes: &'a [u8] },
    Barrier,
}
