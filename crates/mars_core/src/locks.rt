/// Whether the locks of other callers have to be asked for, or the caller is known to hold what its call touches.
#[derive(Clone, Copy)]
pub enum Locks {
    Asked,
    Held,
}
