// The feed of what callers commit.
ghost use Rattle.std.specs.Prelude.{◌≡◌, ◌+◌, ℕ, IfOk, IfErr, IfSome};
ghost use Rattle.mars_manager.specs.Pass.{finds};
ghost use Rattle.mars_manager.specs.Sharing.{Reads};
ghost use Rattle.snapshot_readers.specs.Batches.{joined};
ghost use Rattle.snapshot_readers.specs.Feeds.{fed_book, told};
ghost use Rattle.reader_work.specs.News.{IsBehind, IsOnlooker, HadTurn};

use caller_steps::Core;
use mars_base::NoMemory;
use mars_manager::{Again, Mars, Pass, Patience};
use snapshot_readers::{Feed, Receipt};
use std::alloc::Global;
use std::marker::{Brand, PhantomData};
use std::sync::Wait;

/// Of which shared core and of which list of readers a feed is, and the number of the pass by which it reads. A call picks them.
pub trait Board {
    ghost use Rattle.std.specs.Prelude.{ℕ};
    ghost use Rattle.atomic_table.specs.Seated.{TableId};
    ghost use Rattle.logbook.specs.Pages.{Book};

    ghost table: { TableId };

    ghost book: { Book };

    ghost number: { ℕ };
}

impl Board for Brand {
    ghost use Rattle.std.specs.Prelude.{[]};

    ghost table = { record { words = 0; slots = 0; views_name = 0; atom = 0; block = 0; offset = 0; slot_names = [] } };

    ghost book = { record { number = 0; log_name = 0; cells_name = 0 } };

    ghost number = { 0 };
}

/// A feed that is lent, with the pass by which it reads what callers commit. The pass makes no call.
#[derive(Drop)]
pub struct News<'f, C, B: Board> {
    pub feed: &'f mut Feed,
    pub pass: Pass<C>,
    pub of: PhantomData<B>,
    pub ghost own: { pass.table ≡ B.table },
    pub ghost list: { fed_book feed.now ≡ B.book },
    pub ghost behind: { IsBehind feed.now pass.known },
    pub ghost onlooker: { IsOnlooker B.number pass.known },
}

impl<C: Core + Drop, B: Board> News<'_, C, B> {
    /// Publishes all that callers have committed so far, if memory is not short.
    pub fn published<R: Wait>(self, rt: &R, alloc: Global, mars: &Mars<C>) -> (Self, bool)
        requires { mars.now.table ≡ B.table }
    {
        let News { feed, mut pass, of } = self;
        let shown = publish(rt, alloc, mars, &mut pass, feed).is_some();
        (News { feed, pass, of }, shown)
    }
}

// Tries once for the turn and, if it gets it, publishes all that was committed. `None` if memory was short, or if the core keeps no history, or
// has given up what was not published. What the feed has taken in before, a core that forgets need not keep any longer.
fn try_publish<R: Wait, C: Core + Drop>(
    rt: &R,
    alloc: Global,
    mars: &Mars<C>,
    pass: &mut Pass<C>,
    feed: &mut Feed,
) -> Result<Option<Receipt>, Again>
    requires own { pass.old.table ≡ mars.now.table }
    requires behind { IsBehind feed.old pass.old.known }
    ensures table { pass.new.table ≡ pass.old.table }
    ensures list { fed_book feed.new ≡ fed_book feed.old }
    ensures behind { IsBehind feed.new pass.new.known }
    ensures onlooker { (number : ℕ) → IsOnlooker number pass.old.known → IsOnlooker number pass.new.known }
    ensures shown { IfOk result (λ shown. IfSome shown (λ receipt. joined (told receipt) ≡ pass.new.known.seen)) }
    ensures turn { IfOk result (λ _. Reads C.tells C.view pass.old.known pass.new.known) }
    ensures again { IfErr result (λ a. pass.new.known ≡ finds (a.holder + 1) pass.old.known) }
{
    let fed = feed.fed();
    let Ok(news) = mars.since(alloc, pass, fed, fed)? else {
        return Ok(None);
    };
    match feed.feed(rt, news.as_slice()) {
        Ok(receipt) => Ok(Some(receipt)),
        Err(NoMemory) => Ok(None),
    }
}

// Publishes all that callers have committed so far: the receipt says all that the pass has then seen. `None` if memory was short, and what is
// left out then goes out with the next; or if the core does not have the history any longer. It waits for its turn on the core.
fn publish<R: Wait, C: Core + Drop>(
    rt: &R,
    alloc: Global,
    mars: &Mars<C>,
    pass: &mut Pass<C>,
    feed: &mut Feed,
) -> Option<Receipt>
    requires own { pass.old.table ≡ mars.now.table }
    requires behind { IsBehind feed.old pass.old.known }
    ensures table { pass.new.table ≡ pass.old.table }
    ensures list { fed_book feed.new ≡ fed_book feed.old }
    ensures behind { IsBehind feed.new pass.new.known }
    ensures onlooker { (number : ℕ) → IsOnlooker number pass.old.known → IsOnlooker number pass.new.known }
    ensures shown { IfSome result (λ receipt. joined (told receipt) ≡ pass.new.known.seen) }
    ensures turn { HadTurn C.tells C.view pass.old.known pass.new.known }
{
    let mut patience = Patience::new();
    for _ in rt.forever() {
        match try_publish(rt, alloc, mars, pass, feed) {
            Ok(shown) => return shown,
            Err(_) => mars.rest(rt, &mut patience),
        }
    }
    unreachable!()
}
