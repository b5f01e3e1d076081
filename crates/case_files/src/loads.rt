// Records that a run commits, with the answers to its lines.
use crate::fault::LineFault;
use crate::run::{Run, Wanted};
use std::alloc::Global;

/// Puts each of the keys from the first to the last, so many in a transaction, as lines of the input; and as answers that each of them
/// was done, where the run commits nothing before.
pub fn push_loads(
    alloc: Global,
    run: &mut Run,
    first: u64,
    last: u64,
    size: u64,
) -> Result<(), LineFault> {
    let Run { input, wanted, .. } = run;
    let Some(way) = wanted.last_mut() else {
        return Err(LineFault::Word);
    };
    let mut held: u64 = 0;
    let mut commits: u64 = 0;
    for key in first..last.saturating_add(1) {
        if held == 0 {
            push(input, way, b"0 begin\n", b"0 ok\n")?;
        }
        let put = format!(in alloc; "0 put {key} v{key}\n")?;
        push(input, way, put.as_bytes(), b"0 ok\n")?;
        held = held.wrapping_add(1);
        if held >= size || key == last {
            commits = commits.wrapping_add(1);
            let committed = format!(in alloc; "0 committed {commits}\n")?;
            push(input, way, b"0 commit\n", committed.as_bytes())?;
            held = 0;
        }
    }
    Ok(())
}

// Puts a line of the input, and its answer.
fn push(
    input: &mut Vec<u8>,
    way: &mut Wanted,
    line: &[u8],
    answer: &[u8],
) -> Result<(), LineFault> {
    input.extend_from_slice(line)?;
    way.text.extend_from_slice(answer)?;
    Ok(())
}
