// Whether a run came to what its case says.
use crate::calls::compare_calls;
use crate::ran::Ran;
use crate::report::{CaseFault, Report};
use crate::run::{Left, Placed, Run, TroubleKind, Wanted};
use crate::traced::{Call, Record};
use pcm_media::MemoryMedia;
use std::alloc::Global;

/// Compares what a run over an image, in which the `nth` call may have failed, came to with what is wanted of it.
pub fn compare(
    alloc: Global,
    run: &Run,
    nth: u64,
    before: &[u8],
    ran: &Ran,
    report: &mut Report,
) -> Result<(), CaseFault> {
    compare_answers(run, nth, ran, report)?;
    compare_places(&run.left.has, ran.media.bytes(), report)?;
    compare_others(&run.left, before, ran.media.bytes(), report)?;
    compare_calls(alloc, &run.left, &ran.calls, report)
}

// One of the ways will do.
fn compare_answers(run: &Run, nth: u64, ran: &Ran, report: &mut Report) -> Result<(), CaseFault> {
    for way in &run.wanted {
        if is_told(way, run.trouble.kind, ran.has_failed) && is_way(way, nth, ran) {
            return Ok(());
        }
    }
    report.put_was(ran.sink.written());
    report.put_was(&ran.fault);
    put_ways(&run.wanted, report);
    Err(CaseFault::Differs {
        what: "answers and status",
    })
}

fn put_ways(ways: &[Wanted], report: &mut Report) {
    for (i, way) in ways.iter().enumerate() {
        if i > 0 {
            report.put_wanted(b" or ");
        }
        report.put_wanted(&way.text);
        report.put_wanted(way.fault.as_bytes());
    }
}

// Whether the way is one of a run in which a call of the medium failed, or did not, as it was. Where none is to fail each may be.
fn is_told(way: &Wanted, trouble: TroubleKind, has_failed: bool) -> bool {
    match trouble {
        TroubleKind::Medium => way.is_unfailed != has_failed,
        TroubleKind::Nothing | TroubleKind::Read | TroubleKind::Write | TroubleKind::Power => true,
    }
}

fn is_way(way: &Wanted, nth: u64, ran: &Ran) -> bool {
    way.status == ran.status
        && way.fault.as_bytes() == ran.fault.as_slice()
        && is_text(way, nth, ran.sink.written())
}

fn is_text(way: &Wanted, nth: u64, text: &[u8]) -> bool {
    if way.is_unsaid {
        return true;
    }
    if way.is_front {
        return front(&way.text, nth) == text;
    }
    way.text.as_slice() == text
}

// The first of the lines, as many as stand before the `nth`.
fn front(text: &[u8], nth: u64) -> &[u8] {
    let mut line: u64 = 1;
    for (i, byte) in text.iter().enumerate() {
        if line >= nth {
            return &text[..i];
        }
        if *byte == b'\n' {
            line = line.saturating_add(1);
        }
    }
    text
}

// Compares bytes behind a run with what is wanted of them.
fn compare_places(has: &[Placed], after: &[u8], report: &mut Report) -> Result<(), CaseFault> {
    for placed in has {
        let end = placed.at.saturating_add(placed.bytes.len());
        let was = match after.get(placed.at..end) {
            Some(was) => was,
            None => &[],
        };
        if was != placed.bytes.as_slice() {
            return Err(report.differs("bytes", &placed.bytes, was));
        }
    }
    Ok(())
}

// Where the case says so, all bytes but those that it places are as they were.
fn compare_others(
    left: &Left,
    before: &[u8],
    after: &[u8],
    report: &mut Report,
) -> Result<(), CaseFault> {
    if !left.is_only {
        return Ok(());
    }
    for (at, (old, new)) in before.iter().zip(after).enumerate() {
        if old != new && !is_placed(&left.has, at) {
            return Err(report.differs("all else", &before[at..], &after[at..]));
        }
    }
    Ok(())
}

fn is_placed(has: &[Placed], at: usize) -> bool {
    for placed in has {
        if placed.at <= at && at - placed.at < placed.bytes.len() {
            return true;
        }
    }
    false
}

// Bytes for what is not sure.
const UNSURE: [u8; 3] = [0x35, 0xca, 0x71];

/// Compares what a run over a file came to with what the same run over a medium in memory did: also where something is not sure.
pub fn compare_ran(other: &Ran, ran: &Ran, report: &mut Report) -> Result<(), CaseFault> {
    if ran.status != other.status || ran.sink.written() != other.sink.written() {
        let (wanted, was) = (other.sink.written(), ran.sink.written());
        return Err(report.differs("the answers over memory", wanted, was));
    }
    let lost = lost_range(&other.calls);
    if !are_same_outside(lost, other.media.bytes(), ran.media.bytes()) {
        let (wanted, was) = (other.media.bytes(), ran.media.bytes());
        return Err(report.differs("the bytes over memory", wanted, was));
    }
    compare_unsure(&other.media, &ran.media)
}

// Where a write that failed was to begin and to end. There a file may have anything. An empty range, if none failed.
fn lost_range(records: &[Record]) -> (usize, usize) {
    match records.last() {
        Some(
            Record {
                call: Call::Write { at, len },
                is_done: false,
                ..
            },
        ) => (*at as usize, at.saturating_add(*len) as usize),
        _ => (0, 0),
    }
}

fn are_same_outside(range: (usize, usize), bytes: &[u8], others: &[u8]) -> bool {
    let (from, end) = range;
    bytes.len() == others.len()
        && bytes.get(..from) == others.get(..from)
        && bytes.get(end..) == others.get(end..)
}

// The same is left where something is not sure.
fn compare_unsure(other: &MemoryMedia, media: &MemoryMedia) -> Result<(), CaseFault> {
    let wanted = other.leave(&UNSURE)?;
    let was = media.leave(&UNSURE)?;
    if wanted.bytes() == was.bytes() {
        Ok(())
    } else {
        Err(CaseFault::Differs {
            what: "what is not sure over memory",
        })
    }
}
