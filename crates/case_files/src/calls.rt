// The calls that a run made of its medium.
use crate::report::{CaseFault, Report};
use crate::run::Left;
use crate::traced::{Call, Record, has_failed};
use std::alloc::Global;

/// Compares the calls with what a case says of them.
pub fn compare_calls(
    alloc: Global,
    left: &Left,
    records: &[Record],
    report: &mut Report,
) -> Result<(), CaseFault> {
    if left.is_unwritten && has_write(records) {
        return Err(report.differs("writes", b"none", b"some"));
    }
    if left.is_stopped && has_failed_before_last(records) {
        return Err(report.differs("calls behind one that failed", b"none", b"some"));
    }
    compare_count(alloc, left.calls, records.len(), report)?;
    for made in &left.made {
        let was = nth_call(alloc, records, made.nth)?;
        if made.call.as_str() != was.as_str() {
            return Err(report.differs("a call", made.call.as_bytes(), was.as_bytes()));
        }
    }
    Ok(())
}

fn compare_count(
    alloc: Global,
    wanted: Option<usize>,
    was: usize,
    report: &mut Report,
) -> Result<(), CaseFault> {
    match wanted {
        Some(wanted) if wanted != was => {
            let wanted = format!(in alloc; "{wanted}")?;
            let was = format!(in alloc; "{was}")?;
            Err(report.differs("calls", wanted.as_bytes(), was.as_bytes()))
        }
        Some(_) | None => Ok(()),
    }
}

fn has_write(records: &[Record]) -> bool {
    for record in records {
        match record.call {
            Call::Write { at: _, len: _ } => return true,
            Call::Read { at: _, len: _ } | Call::Barrier => {}
        }
    }
    false
}

fn has_failed_before_last(records: &[Record]) -> bool {
    let Some((_, before)) = records.split_last() else {
        return false;
    };
    has_failed(before)
}

// The text of a call, counted from 1.
fn nth_call(alloc: Global, records: &[Record], nth: usize) -> Result<String, CaseFault> {
    if nth == 0 || nth > records.len() {
        return Ok(String::from_str(alloc, "no call")?);
    }
    let text = match records[nth - 1].call {
        Call::Read { at, len } => format!(in alloc; "read {at} {len}")?,
        Call::Write { at, len } => format!(in alloc; "write {at} {len}")?,
        Call::Barrier => String::from_str(alloc, "barrier")?,
    };
    Ok(text)
}
