// A reader that takes no lock, beside the feed of what callers commit.
ghost use Rattle.std.specs.Prelude.{◌≡◌, ◌+◌, ◌≤◌, length};
ghost use Rattle.snapshot_readers.specs.Feeds.{fed, fed_book, read_book};
ghost use Rattle.history.specs.Legal.{AreNumberedFrom};
ghost use Rattle.snapshot_readers.specs.Batches.{joined};

use caller_steps::Core;
use history::{Done, Key};
use mars_base::NoMemory;
use mars_manager::{Mars, Pass};
use record_slots::Value;
use snapshot_readers::{Feed, Reader, Receipt};
use std::alloc::Global;
use std::sync::Wait;

/// Publishes the next committed transactions, all at once, and reads a record after at least these.
pub fn publish_and_get<R: Wait>(
    rt: &R,
    feed: &mut Feed,
    reader: &mut Reader,
    next: &[Done],
    key: &Key,
) -> Result<Option<Value>, NoMemory>
    requires next { AreNumberedFrom (length (joined (fed feed.old)) + 1) next.now }
    requires reader { read_book reader.old ≡ fed_book feed.old }
    ensures { (fed_book feed.new ≡ fed_book feed.old) × (read_book reader.new ≡ read_book reader.old) }
{
    let receipt = feed.feed(rt, next)?;
    reader.learn(&receipt);
    let (_count, value) = reader.get(rt, key);
    Ok(value)
}

/// Publishes what the callers of a shared core have committed since the feed's last transaction, all at once. The pass is one that makes no
/// calls of its own, and nothing else is fed. `None` if another pass had the turn just then, or if memory was short: the next time makes up
/// for it. What the feed has taken in need not be kept any longer: a core with `KeepsNews` then has in memory what was committed since, and its
/// memory does not grow with the run.
pub fn publish_news<R: Wait, C: Core + Drop>(
    rt: &R,
    alloc: Global,
    mars: &Mars<C>,
    pass: &mut Pass<C>,
    feed: &mut Feed,
) -> Option<Receipt>
    requires table { pass.old.table ≡ mars.now.table }
    requires behind { length (joined (fed feed.old)) ≤ length pass.old.known.seen }
    ensures table { pass.new.table ≡ pass.old.table }
    ensures behind { length (joined (fed feed.new)) ≤ length pass.new.known.seen }
    ensures book { fed_book feed.new ≡ fed_book feed.old }
{
    let fed = feed.fed();
    match mars.since(alloc, pass, fed, fed) {
        Ok(Ok(news)) => feed.feed(rt, news.as_slice()).ok(),
        Ok(Err(_)) | Err(_) => None,
    }
}
