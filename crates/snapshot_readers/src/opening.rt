ghost use Rattle.std.specs.Prelude.{◌≡◌, [], ◌∷◌, length, IfOk, All, Some, None};
ghost use Rattle.left_right.specs.Sides.{view};
ghost use Rattle.snapshot_readers.specs.Shown.{book_known, base_known, lists_known};
ghost use Rattle.history.specs.Rows.{table_of};
ghost use Rattle.snapshot_readers.specs.Feeds.{published, fed, heard, fed_book, lists_published, lists_read, read, read_book, read_base, IsFresh, HasReadNone};

use crate::feed::{Feed, Writer};
use crate::prefix::Prefix;
use crate::reader::{Inner, Reader, Readers};
use crate::records::Records;
use crate::snapshot::{Both, Claims, Snapshot, Takes};
use crossbeam_utils::Backoff;
use history::Tables;
use left_right::writer;
use mars_base::{Listed, NoMemory};
use std::alloc::Global;
use std::sync::Wait;

// What is shown at the start.
fn first_copy(alloc: Global, base: &Tables, list: &Prefix) -> Result<Snapshot, NoMemory>
    ensures { IfOk result (λ shown. (shown.records ≡ table_of base.now) × (shown.list ≡ list.now) × (shown.count ≡ 1)) }
{
    let records = Records::of(base, alloc)?;
    Ok(Snapshot {
        records,
        list: list.again(),
        count: 1,
    })
}

// A reader's place, tried for until one is free.
fn new_place<R: Wait>(rt: &R, writer: &Writer) -> Inner
    ensures view { view result.place ≡ None }
    ensures table { result.place.table_id ≡ writer.now.desk.place.table_id }
{
    let backoff = Backoff::new();
    for _ in rt.forever() {
        if let Ok(reader) = writer.factory().reader() {
            return reader;
        }
        backoff.snooze();
    }
    unreachable!()
}

// A reader that knows what the writer knows.
fn new_reader<R: Wait>(rt: &R, writer: &mut Writer, list: &Prefix) -> Reader
    requires { book_known (view writer.old.desk.place) ≡ Some list.now.seen.book }
    ensures writer { (view writer.new.desk.place ≡ view writer.old.desk.place) × (writer.new.desk.shown ≡ writer.old.desk.shown) × (writer.new.log ≡ writer.old.log) × (writer.new.behind ≡ writer.old.behind) }
    ensures reader { (read result ≡ list.now.seen.log) × (read_book result ≡ list.now.seen.book) × (read_base result ≡ base_known (view writer.old.desk.place)) }
    ensures lists { lists_read result ≡ lists_known (view writer.old.desk.place) }
{
    let mut inner = new_place(rt, writer);
    inner.learn::<Takes>(writer.tell::<Both>());
    Reader {
        inner,
        read: list.again(),
    }
}

/// Opens a feed over the records of `base` with as many readers as asked, and an empty list of transactions. If a key stands twice in
/// `base`, the first record counts. It waits only while it finds no place for a reader, which may be for want of memory too.
pub fn open_readers<R: Wait>(
    rt: &R,
    alloc: Global,
    base: &Tables,
    readers: u8,
) -> Result<(Feed, Readers), NoMemory>
    ensures feed { IfOk result (λ made. (published made.0 ≡ []) × (fed made.0 ≡ []) × (heard made.0 ≡ [])) }
    ensures readers { IfOk result (λ made. (length made.1 ≡ readers) × All (IsFresh (fed_book made.0) (table_of base.now)) made.1) }
    ensures lists { IfOk result (λ made. (lists_published made.0 ≡ [] ∷ []) × All HasReadNone made.1) }
{
    let (word, list) = Prefix::open();
    let first = first_copy(alloc, base, &list)?;
    let second = first_copy(alloc, base, &list)?;
    let places = usize::from(readers).max(1);
    let writer: Writer = writer::Writer::new(alloc, first, second, places)?;
    let (mut writer, claimed) = writer.publish_as::<Claims, R>(rt);
    let Ok(()) = claimed else {
        drop(writer.take(rt));
        return Err(NoMemory);
    };
    let mut opened = Listed::new(alloc);
    for _ in 0..readers {
        let reader = new_reader(rt, &mut writer, &list);
        let Ok(()) = opened.push(reader) else {
            drop(writer.take(rt));
            return Err(NoMemory);
        };
    }
    let feed = Feed {
        alloc,
        writer,
        word,
        heard: list.again(),
        fed: list,
    };
    Ok((feed, opened))
}
