// What is told of the work of callers on threads.
ghost use Rattle.std.specs.Prelude.{◌≡◌, ◌≢◌, ◌++◌, ◌≤◌, ◌↔◌, length, IfOk, IsOk, OnOk};
ghost use Rattle.std.specs.List.{flat_map};
ghost use Rattle.std.specs.FinMap.{entries};
ghost use Rattle.history.specs.Legal.{records};
ghost use Rattle.history.specs.Rows.{table_of};
ghost use Rattle.history_text.specs.Text.{done_lines, work_text, fate_line, numbered};
ghost use Rattle.texts.specs.MediaFault.{media_line};
ghost use Rattle.texts.specs.Written.{Appends, IsWritten, Wrote};
ghost use Rattle.mars_shell.specs.Told.{TellsEnd, answers_in};

use array_runs::write_ended;
use caller_plans::LineFaults;
use caller_work::{Fates, WorkEnd};
use history::{Answers, Done, Tables};
use history_replay::play;
use history_text::{put_history, write_answers, write_fates, write_faults, write_tables};
use mars_base::NoMemory;
use outside::Sink;
use script_run::Ended;
use std::alloc::Global;
use texts::{MEDIA_LINE, TextOut};

/// What is told of work beside the history and the records. The answers are missing if memory was short.
#[derive(Drop)]
pub struct WorkLines {
    pub faults: LineFaults,
    pub fates: Vec<Fates>,
    pub answers: Result<Vec<Answers>, NoMemory>,
}

/// Writes what came of the work, by how it ended.
pub fn tell_end<K: Sink>(
    alloc: Global,
    sink: &mut K,
    lines: &WorkLines,
    history: &[Done],
    base: &Tables,
    end: WorkEnd,
) -> Ended
    requires few { length lines.now.fates.items ≤ 255 }
    requires readers { length (answers_in lines.now.answers) ≤ 255 }
    ensures told { Wrote K.tells (K.written sink.old) (K.written sink.new) (K.faults sink.old) (K.faults sink.new)
        (λ cut text. TellsEnd result cut text (work_text lines.now.faults history.now lines.now.fates.items (entries (records (table_of base.now) history.now)) (answers_in lines.now.answers)) (flat_map done_lines history.now ++ media_line)) }
    ensures whole { result ≢ Ended.MediaFault → result ≢ Ended.NoMemory → (end ≡ WorkEnd.All) × IsOk lines.now.answers }
    ensures fault { (result ≡ Ended.MediaFault) ↔ (end ≡ WorkEnd.MediaFault) }
    ensures short { result ≡ Ended.NoMemory → sink.new ≡ sink.old }
{
    match end {
        WorkEnd::All => match work_text(alloc, lines, history, base) {
            Ok(text) => write_ended(sink, &text),
            Err(NoMemory) => Ended::NoMemory,
        },
        WorkEnd::MediaFault => {
            tell_media_fault(sink, history);
            Ended::MediaFault
        }
        WorkEnd::NoMemory => Ended::NoMemory,
    }
}

// The text of work that came to its end. All of it is formed before any of it is written.
fn work_text(
    alloc: Global,
    lines: &WorkLines,
    history: &[Done],
    base: &Tables,
) -> Result<Vec<u8>, NoMemory>
    requires few { length lines.now.fates.items ≤ 255 }
    requires readers { length (answers_in lines.now.answers) ≤ 255 }
    ensures text { IfOk result (λ text. text.items ≡ work_text lines.now.faults history.now lines.now.fates.items (entries (records (table_of base.now) history.now)) (answers_in lines.now.answers)) }
    ensures answers { OnOk result (IsOk lines.now.answers) }
{
    let Ok(answers) = &lines.answers else {
        return Err(NoMemory);
    };
    let tables = play(alloc, history, base)?;
    let mut text = Vec::new(alloc);
    write_faults(&mut text, lines.faults.as_slice())?;
    put_history(&mut text, history)?;
    write_all_fates(&mut text, &lines.fates)?;
    write_tables(&mut text, tables.as_slice())?;
    write_answers(&mut text, answers)?;
    Ok(text)
}

fn write_all_fates(text: &mut Vec<u8>, fates: &[Fates]) -> Result<(), NoMemory>
    requires few { length fates.now ≤ 255 }
    ensures { OnOk result (text.new.items ≡ text.old.items ++ numbered (λ caller. numbered (fate_line caller) 1) 0 fates.now) }
{
    for (caller, fates) in fates.iter().enumerate() {
        write_fates(text, caller as u8, fates.as_slice())?;
    }
    Ok(())
}

// Writes the history and that the medium failed. No text is formed, so how the work ended and what is told of it do not depend on memory.
fn tell_media_fault<K: Sink>(sink: &mut K, history: &[Done])
    ensures { Wrote K.tells (K.written sink.old) (K.written sink.new) (K.faults sink.old) (K.faults sink.new)
        (λ cut text. IsWritten cut text (flat_map done_lines history.now ++ media_line)) }
{
    match put_fault_text(sink, history) {
        Ok(()) => {}
        Err(_) => {}
    }
}

fn put_fault_text<E, T: TextOut<E>>(out: &mut T, history: &[Done]) -> Result<(), E>
    ensures { Appends T.tells (T.view out.old) (T.view out.new) result (flat_map done_lines history.now ++ media_line) }
{
    put_history(out, history)?;
    out.put(MEDIA_LINE)
}
