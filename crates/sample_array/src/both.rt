// Sixteen bytes of an array that change together: after a loss of power all are new, or none is.
use eaw_face::{EawFault, EawStore};

/// Writes at two places as one transaction of number 0, which has none live.
pub fn write_both<S: EawStore>(
    store: &mut S,
    one: &[u8; 8],
    other: &[u8; 8],
) -> Result<(), EawFault> {
    store.log_write(0, 1024, one)?;
    if let Err(fault) = store.log_write(0, 1536, other) {
        let _ = store.abort(0);
        return Err(fault);
    }
    store.commit(0)
}
