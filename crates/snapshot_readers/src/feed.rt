ghost use Rattle.std.specs.Prelude.{◌≡◌, ◌+◌, ◌++◌, ◌∷◌, ◌⊎◌, [], length, drop, Some, IfOk, OnOk, OnErr};
ghost use mathlib.Core.List.{IsPrefix};
ghost use Rattle.history.specs.Writes.{Table, all_written};
ghost use Rattle.history.specs.Legal.{records, AreNumberedFrom};
ghost use Rattle.std.specs.Global.{Vec};
ghost use Rattle.left_right.specs.Sides.{view};
ghost use Rattle.snapshot_readers.specs.Book.{word_of};
ghost use Rattle.snapshot_readers.specs.Shown.{Leads, book_known, lists_known};
ghost use Rattle.snapshot_readers.specs.Batches.{joined, with_batch};
ghost use Rattle.snapshot_readers.specs.Waiting.{IsWaiting};

use crate::prefix::{LengthWord, Prefix};
use crate::reader::Reader;
use crate::snapshot::{Change, Known, Shows, Snapshot, Standing};
use crate::writes::writes_of;
use core::mem::replace_with;
use history::Done;
use left_right::writer;
use mars_base::NoMemory;
use std::alloc::Global;
use std::sync::Wait;

pub(crate) type Writer = writer::Writer<Snapshot, Change, Option<Known>, Standing>;

/// The one that publishes. It is not `Drop`: end it by `close`.
pub struct Feed {
    pub(crate) alloc: Global,
    pub(crate) writer: Writer,
    pub(crate) word: LengthWord,
    /// All that was fed, published or pending.
    pub(crate) fed: Prefix,
    /// What each later receipt begins with.
    pub(crate) heard: Prefix,
    ghost word_is: { word ≡ word_of fed.seen.book },
    ghost heard_is: { heard.seen.book ≡ fed.seen.book },
    ghost leads: { Leads writer.desk.shown.value (drop writer.behind writer.log.items) fed },
    ghost knows: { book_known (view writer.desk.place) ≡ Some fed.seen.book },
    ghost counted: { length (lists_known (view writer.desk.place)) ≡ writer.desk.shown.value.count },
}

/// All that was published when the receipt was given.
#[derive(Drop)]
pub struct Receipt {
    pub(crate) told: Prefix,
}

// Appends all that the transactions write, to be published at once, or nothing.
fn append_writes(writer: &mut Writer, dones: &[Done], alloc: Global) -> Result<(), NoMemory>
    ensures desk { writer.new.desk ≡ writer.old.desk }
    ensures ok { OnOk result (IsWaiting (drop writer.old.behind writer.old.log.items) (drop writer.new.behind writer.new.log.items) dones.now) }
    ensures err { OnErr result (drop writer.new.behind writer.new.log.items ≡ drop writer.old.behind writer.old.log.items) }
{
    let writes = writes_of(dones, alloc)?;
    let Ok(()) = writer.append(Change::Write(writes)) else {
        return Err(NoMemory);
    };
    Ok(())
}

// Publishes all that is pending, which leads to the list, or nothing.
fn publish<R: Wait>(mut writer: Writer, rt: &R, list: &Prefix) -> (Writer, Result<(), NoMemory>)
    requires leads { Leads writer.desk.shown.value (drop writer.behind writer.log.items) list.now }
    requires knows { book_known (view writer.desk.place) ≡ Some list.now.seen.book }
    requires counted { length (lists_known (view writer.desk.place)) ≡ writer.desk.shown.value.count }
    ensures leads { Leads result.0.desk.shown.value (drop result.0.behind result.0.log.items) list.now }
    ensures knows { book_known (view result.0.desk.place) ≡ Some list.now.seen.book }
    ensures counted { length (lists_known (view result.0.desk.place)) ≡ result.0.desk.shown.value.count }
    ensures ok { OnOk result.1 (result.0.desk.shown.value.list ≡ list.now) }
    ensures err { OnErr result.1 (result.0.desk.shown.value ≡ writer.desk.shown.value) }
    ensures once { OnOk result.1 (lists_known (view result.0.desk.place) ≡ lists_known (view writer.desk.place) ++ list.now.seen.log ∷ []) }
    ensures none { OnErr result.1 (lists_known (view result.0.desk.place) ≡ lists_known (view writer.desk.place)) }
{
    let Some(count) = writer.published().count.checked_add(1) else {
        return (writer, Err(NoMemory));
    };
    let Ok(()) = writer.append(Change::Tell(list.again(), count)) else {
        return (writer, Err(NoMemory));
    };
    let (writer, shown) = writer.publish_as::<Shows, R>(rt);
    match shown {
        Ok(()) => (writer, Ok(())),
        Err(_) => (writer, Err(NoMemory)),
    }
}

impl Feed {
    ghost use Rattle.snapshot_readers.specs.Feeds.{published, fed, heard, fed_book, lists_published, told, told_book, read, read_book};

    /// How many transactions were fed, published or pending.
    pub fn fed(&self) -> u64
        ensures { result ≡ length (joined (fed self.now)) }
    {
        self.fed.count
    }

    // Takes in all of the transactions, which stay pending, or none.
    fn take_in<R: Wait>(self, rt: &R, dones: &[Done]) -> (Feed, Result<(), NoMemory>)
        requires { AreNumberedFrom (length (joined (fed self)) + 1) dones.now }
        ensures ok { OnOk result.1 (fed result.0 ≡ with_batch (fed self) dones.now) }
        ensures err { OnErr result.1 (fed result.0 ≡ fed self) }
        ensures same { (published result.0 ≡ published self) × (heard result.0 ≡ heard self) × (fed_book result.0 ≡ fed_book self) }
        ensures lists { lists_published result.0 ≡ lists_published self }
    {
        let Self {
            alloc,
            mut writer,
            word,
            fed,
            heard,
        } = self;
        let Ok(()) = append_writes(&mut writer, dones, alloc) else {
            let feed = Feed {
                alloc,
                writer,
                word,
                fed,
                heard,
            };
            return (feed, Err(NoMemory));
        };
        let fed = fed.after(rt, &word, dones);
        let feed = Feed {
            alloc,
            writer,
            word,
            fed,
            heard,
        };
        (feed, Ok(()))
    }

    // Publishes all that is pending, or nothing.
    fn show<R: Wait>(self, rt: &R) -> (Feed, Result<(), NoMemory>)
        ensures ok { OnOk result.1 (published result.0 ≡ fed self) }
        ensures err { OnErr result.1 (published result.0 ≡ published self) }
        ensures once { OnOk result.1 (lists_published result.0 ≡ lists_published self ++ fed self ∷ []) }
        ensures none { OnErr result.1 (lists_published result.0 ≡ lists_published self) }
        ensures same { (fed result.0 ≡ fed self) × (heard result.0 ≡ heard self) × (fed_book result.0 ≡ fed_book self) }
    {
        let Self {
            alloc,
            writer,
            word,
            fed,
            heard,
        } = self;
        let (writer, shown) = publish(writer, rt, &fed);
        let feed = Feed {
            alloc,
            writer,
            word,
            fed,
            heard,
        };
        (feed, shown)
    }

    // `feed`, of a feed by value.
    fn feed_all<R: Wait>(self, rt: &R, dones: &[Done]) -> (Feed, Result<Receipt, NoMemory>)
        requires { AreNumberedFrom (length (joined (fed self)) + 1) dones.now }
        ensures ok { IfOk result.1 (λ receipt. (told receipt ≡ with_batch (fed self) dones.now) × (told_book receipt ≡ fed_book self) × (fed result.0 ≡ told receipt) × (published result.0 ≡ told receipt)) }
        ensures heard { IfOk result.1 (λ receipt. IsPrefix (heard self) (told receipt)) }
        ensures err { OnErr result.1 ((published result.0 ≡ published self) × ((fed result.0 ≡ fed self) ⊎ (fed result.0 ≡ with_batch (fed self) dones.now))) }
        ensures once { IfOk result.1 (λ receipt. lists_published result.0 ≡ lists_published self ++ told receipt ∷ []) }
        ensures none { OnErr result.1 (lists_published result.0 ≡ lists_published self) }
        ensures same { (heard result.0 ≡ heard self) × (fed_book result.0 ≡ fed_book self) }
    {
        let (feed, taken) = self.take_in(rt, dones);
        let Ok(()) = taken else {
            return (feed, Err(NoMemory));
        };
        let (feed, shown) = feed.show(rt);
        let Ok(()) = shown else {
            return (feed, Err(NoMemory));
        };
        feed.fed.reaches(rt, &feed.heard);
        let told = feed.fed.again();
        (feed, Ok(Receipt { told }))
    }

    /// Takes in the next transactions as a batch, and publishes them and all that is pending at once. They are numbered from `fed` plus 1
    /// on. It waits for readers that are still in what was published before the last publish.
    ///
    /// At `NoMemory` nothing is published. Either all of the transactions were taken in, which then stay pending, or none: `fed` says
    /// which. The next feed that answers Ok publishes what is pending before its own, all at once. Without transactions it publishes
    /// what is pending.
    pub fn feed<R: Wait>(&mut self, rt: &R, dones: &[Done]) -> Result<Receipt, NoMemory>
        requires { AreNumberedFrom (length (joined (fed self.old)) + 1) dones.now }
        ensures ok { IfOk result (λ receipt. (told receipt ≡ with_batch (fed self.old) dones.now) × (told_book receipt ≡ fed_book self.old) × (fed self.new ≡ told receipt) × (published self.new ≡ told receipt)) }
        ensures heard { IfOk result (λ receipt. IsPrefix (heard self.old) (told receipt)) }
        ensures err { OnErr result ((published self.new ≡ published self.old) × ((fed self.new ≡ fed self.old) ⊎ (fed self.new ≡ with_batch (fed self.old) dones.now))) }
        ensures once { IfOk result (λ receipt. lists_published self.new ≡ lists_published self.old ++ told receipt ∷ []) }
        ensures none { OnErr result (lists_published self.new ≡ lists_published self.old) }
        ensures same { (heard self.new ≡ heard self.old) × (fed_book self.new ≡ fed_book self.old) }
    {
        replace_with(
            self,
            (rt, dones),
            |feed, (rt, dones)| feed.feed_all(rt, dones),
        )
    }

    /// Each later receipt begins with all that the reader saw or learnt. The reader is of the same feed.
    pub fn learn(&mut self, reader: &mut Reader)
        requires { read_book reader.old ≡ fed_book self.old }
        ensures heard { IsPrefix (heard self.old) (heard self.new) × IsPrefix (read reader.old) (heard self.new) }
        ensures same { (published self.new ≡ published self.old) × (fed self.new ≡ fed self.old) × (fed_book self.new ≡ fed_book self.old) }
        ensures lists { lists_published self.new ≡ lists_published self.old }
        ensures reader { reader.new ≡ reader.old }
    {
        self.heard = self.heard.longer(&reader.read);
    }

    /// Ends the feed: readers find nothing published from now on, and a `get` would try for ever. It waits for those that are reading.
    pub fn close<R: Wait>(self, rt: &R) {
        let Self {
            alloc: _,
            writer,
            word: _word,
            fed: _fed,
            heard: _heard,
        } = self;
        drop(writer.take(rt));
    }
}
