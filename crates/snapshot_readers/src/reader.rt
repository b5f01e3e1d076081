ghost use Rattle.std.specs.Prelude.{◌≡◌, length, Some, MatchBool};
ghost use Rattle.std.specs.FinMap.{get};
ghost use mathlib.Core.List.{IsPrefix};
ghost use Rattle.snapshot_readers.specs.Batches.{joined, records_after, IsLast};
ghost use Rattle.left_right.specs.Sides.{view};
ghost use Rattle.snapshot_readers.specs.Shown.{book_known, base_known, lists_known};

use crate::feed::Receipt;
use crate::prefix::Prefix;
use crate::snapshot::{Known, Sees, Snapshot, Standing};
use core::mem::replace_with;
use crossbeam_utils::Backoff;
use history::Key;
use left_right::reader;
use mars_base::Listed;
use record_slots::Value;
use std::sync::Wait;

pub(crate) type Inner = reader::Reader<Snapshot, Option<Known>, Standing>;

/// Reads what the feed publishes. Each thread that reads has its own.
#[derive(Drop)]
pub struct Reader {
    pub(crate) inner: Inner,
    /// All that it saw or learnt.
    pub(crate) read: Prefix,
    ghost tied: { book_known (view inner.place) ≡ Some read.seen.book },
}

/// The readers of one feed.
pub type Readers = Listed<Reader>;

// The value of the key in what is published, with its list, which goes on from `least`.
fn look<R: Wait>(inner: Inner, rt: &R, least: &Prefix, key: &Key) -> (Inner, Prefix, Option<Value>)
    requires { book_known (view inner.place) ≡ Some least.now.seen.book }
    ensures tied { (book_known (view result.0.place) ≡ book_known (view inner.place)) × (base_known (view result.0.place) ≡ base_known (view inner.place)) }
    ensures book { result.1.seen.book ≡ least.now.seen.book }
    ensures on { IsPrefix least.now.seen.log result.1.seen.log }
    ensures value { result.2 ≡ get (records_after (base_known (view inner.place)) result.1.seen.log) key.now }
    ensures lists { IsPrefix (lists_known (view inner.place)) (lists_known (view result.0.place)) × IsLast result.1.seen.log (lists_known (view result.0.place)) }
{
    let mut inner = inner;
    let backoff = Backoff::new();
    for _ in rt.forever() {
        match inner.enter_as::<Sees>() {
            Ok(reading) => {
                let shown = reading.get();
                if shown.list.goes_on(least) {
                    let list = shown.list.again();
                    let value = shown.records.get(key);
                    return (reading.leave(), list, value);
                }
                inner = reading.leave();
            }
            Err(back) => {
                inner = back;
            }
        }
        backoff.snooze();
    }
    unreachable!()
}

impl Reader {
    ghost use Rattle.snapshot_readers.specs.Feeds.{told, told_book, read, read_book, read_base, lists_read};

    // `get`, of a reader by value.
    fn got<R: Wait>(self, rt: &R, key: &Key) -> (Reader, (u64, Option<Value>))
        ensures on { IsPrefix (read self) (read result.0) }
        ensures count { result.1.0 ≡ length (joined (read result.0)) }
        ensures value { result.1.1 ≡ get (records_after (read_base result.0) (read result.0)) key.now }
        ensures same { (read_book result.0 ≡ read_book self) × (read_base result.0 ≡ read_base self) }
        ensures published { IsPrefix (lists_read self) (lists_read result.0) × IsLast (read result.0) (lists_read result.0) }
    {
        let Self { inner, read } = self;
        let (inner, read, value) = look(inner, rt, &read, key);
        let count = read.count;
        (Reader { inner, read }, (count, value))
    }

    /// How many transactions were published, and the value of the key in the records after them. All that this reader saw or learnt before
    /// is a prefix of those. They are all that was published last, and none that is pending. It takes no memory. It waits for no other reader
    /// and for no feed, and tries again only where the feed was closed.
    pub fn get<R: Wait>(&mut self, rt: &R, key: &Key) -> (u64, Option<Value>)
        ensures on { IsPrefix (read self.old) (read self.new) }
        ensures count { result.0 ≡ length (joined (read self.new)) }
        ensures value { result.1 ≡ get (records_after (read_base self.new) (read self.new)) key.now }
        ensures same { (read_book self.new ≡ read_book self.old) × (read_base self.new ≡ read_base self.old) }
        ensures published { IsPrefix (lists_read self.old) (lists_read self.new) × IsLast (read self.new) (lists_read self.new) }
    {
        replace_with(self, (rt, key), |reader, (rt, key)| reader.got(rt, key))
    }

    /// From now on it reads no less than the receipt says was published. The receipt is of the same feed.
    pub fn learn(&mut self, receipt: &Receipt)
        requires { told_book receipt.now ≡ read_book self.old }
        ensures on { IsPrefix (read self.old) (read self.new) × IsPrefix (told receipt.now) (read self.new) }
        ensures same { (read_book self.new ≡ read_book self.old) × (read_base self.new ≡ read_base self.old) }
        ensures lists { lists_read self.new ≡ lists_read self.old }
    {
        self.read = self.read.longer(&receipt.told);
    }

    /// Whether all that this reader saw or learnt is a prefix of what another of the same feed did. If not, it is the other way round.
    pub fn begins(&self, other: &Reader) -> bool
        requires { read_book other.now ≡ read_book self.now }
        ensures { MatchBool result (IsPrefix (read self.now) (read other.now)) (IsPrefix (read other.now) (read self.now)) }
    {
        other.read.goes_on(&self.read)
    }
}
