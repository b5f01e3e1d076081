// Flags that threads set for each other.
use std::sync::atomic::{AtomicBool, Ordering};
use std::thread;

// How often a flag is looked at. Behind that the wait for it is given up, so that a test ends.
const LOOKS: u64 = 20_000_000;

/// Waits for a flag, but not for ever. Whether it was set.
pub fn wait_for(flag: &AtomicBool) -> bool {
    for _look in 0..LOOKS {
        if flag.load(Ordering::SeqCst) {
            return true;
        }
        thread::yield_now();
    }
    false
}
