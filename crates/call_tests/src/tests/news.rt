// What a pass reads of the history of a shared core, and what a reader is answered that is fed with it.
ghost use Rattle.std.specs.Prelude.{◌≡◌, ◌≤◌, length, drop, IfSome};
ghost use Rattle.caller_steps.specs.Prefix.{Grows};
ghost use Rattle.mars_manager.specs.Pass.{dealt};
ghost use Rattle.mars_manager.specs.Sharing.{CanShare};

use super::sharing::{array, opened};
use caller_steps::Core;
use history::{History, Key, Reply, Tables, main_table};
use mars_manager::{Mars, NotCopied, Pass, Passes};
use pcm_media::Media;
use record_slots::Value;
use sample_threads::{publish_news, put_one};
use snapshot_readers::{Reader, open_readers};
use std::alloc::Global;
use std::sync::Wait;
use std::test::*;

// What the history has behind the first transactions, of which the pass has seen so many.
fn behind<C: Core + Drop>(
    alloc: Global,
    mars: &Mars<C>,
    pass: &mut Pass<C>,
    from: u64,
) -> Option<History>
    requires own { pass.old.table ≡ mars.now.table }
    requires from { from ≤ length pass.old.known.seen }
    ensures table { pass.new.table ≡ pass.old.table }
    ensures seen { Grows pass.old.known.seen pass.new.known.seen }
    ensures copy { IfSome result (λ history. history ≡ drop from pass.new.known.seen) }
{
    match mars.since(alloc, pass, from, 0) {
        Ok(Ok(history)) => Some(history),
        Ok(Err(_)) | Err(_) => None,
    }
}

// How many transactions the pass reads behind none, behind the first one, and behind both.
fn counts_behind<C: Core + Drop>(
    alloc: Global,
    mars: &Mars<C>,
    pass: &mut Pass<C>,
) -> Option<[usize; 3]>
    requires { pass.old.table ≡ mars.now.table }
    ensures { pass.new.table ≡ pass.old.table }
{
    let all = behind(alloc, mars, pass, 0)?;
    let count = all.as_slice().len();
    if count != 2 {
        return None;
    }
    let last = behind(alloc, mars, pass, 1)?;
    let none = behind(alloc, mars, pass, 2)?;
    Some([count, last.as_slice().len(), none.as_slice().len()])
}

// What a reader is answered for the key 1 before it is fed, and then for the keys 1 to 3. Then nothing is left to be fed.
fn answers<C: Core + Drop, R: Wait>(
    rt: &R,
    alloc: Global,
    mars: &Mars<C>,
    pass: &mut Pass<C>,
) -> Option<[(u64, Option<Value>); 4]>
    requires { pass.old.table ≡ mars.now.table }
    ensures { pass.new.table ≡ pass.old.table }
{
    let base = Tables::new(alloc);
    let Ok((mut feed, mut readers)) = open_readers(rt, alloc, &base, 1) else {
        return None;
    };
    let Some(mut reader) = readers.pop() else {
        feed.close(rt);
        return None;
    };
    let before = reader.get(rt, &of_main(1));
    let shown = publish_news(rt, alloc, mars, pass, &mut feed).is_some();
    let read = read_three(rt, &mut reader);
    let shown_again = publish_news(rt, alloc, mars, pass, &mut feed).is_some();
    feed.close(rt);
    if !shown || !shown_again {
        return None;
    }
    Some([before, read.0, read.1, read.2])
}

fn of_main(key: u64) -> Key {
    Key {
        table: main_table(),
        key,
    }
}

type Read = (u64, Option<Value>);

// How much the pass reads of the history, and what a reader is answered; and how many transactions are copied, once they were fed.
type Outcome = ([usize; 3], [Read; 4], Result<usize, NotCopied>);

fn copied_again<C: Core + Drop>(
    alloc: Global,
    mars: &Mars<C>,
    pass: &mut Pass<C>,
) -> Option<Result<usize, NotCopied>>
    requires { pass.old.table ≡ mars.now.table }
{
    match mars.since(alloc, pass, 0, 0) {
        Ok(Ok(history)) => Some(Ok(history.as_slice().len())),
        Ok(Err(why)) => Some(Err(why)),
        Err(_) => None,
    }
}

fn read_three<R: Wait>(rt: &R, reader: &mut Reader) -> (Read, Read, Read) {
    let one = reader.get(rt, &of_main(1));
    let two = reader.get(rt, &of_main(2));
    let three = reader.get(rt, &of_main(3));
    (one, two, three)
}

fn two_commits<C: Core + Drop, R: Wait>(
    rt: &R,
    alloc: Global,
    mars: &Mars<C>,
    mut passes: Passes<C>,
    value: Value,
) -> Option<Outcome>
    requires table { passes.table ≡ mars.now.table }
    requires passes { passes.list ≡ dealt passes.table mars.now.setup 3 }
{
    let mut two = passes.take()?;
    let _one = passes.take()?;
    let mut zero = passes.take()?;
    let first = put_one(rt, mars, &mut zero, 1, value);
    let second = put_one(rt, mars, &mut zero, 2, value);
    if first != Reply::Committed(1) || second != Reply::Committed(2) {
        return None;
    }
    let counts = counts_behind(alloc, mars, &mut two)?;
    let read = answers(rt, alloc, mars, &mut two)?;
    let again = copied_again(alloc, mars, &mut two)?;
    Some((counts, read, again))
}

fn over_core<C: Core + Drop, R: Wait>(
    rt: &R,
    alloc: Global,
    core: C,
    value: Value,
) -> Option<Outcome>
    requires { CanShare C.tells 3 (C.view core) }
{
    let (mars, passes) = Mars::share(alloc, core, 3).ok()?;
    two_commits(rt, alloc, &mars, passes, value)
}

fn over_array<M: Media + Drop, R: Wait>(
    rt: &R,
    alloc: Global,
    media: M,
    value: Value,
) -> Option<Outcome> {
    over_core(rt, alloc, opened(alloc, media)?, value)
}

// What was fed is given up, since the core keeps the news alone.
#[test]
fn what_was_committed_is_read_and_fed(rt: HostRuntime) -> Result<(), Fail> {
    let value = Value::of(b"kept").ok_or("value")?;
    let media = array(rt.alloc()).ok_or("array")?;
    let (counts, read, again) = over_array(&rt, rt.alloc(), media, value).ok_or("shared")?;
    assert_eq!(rt; counts, [2, 1, 0]);
    assert_eq!(rt;
        read,
        [(0, None), (2, Some(value)), (2, Some(value)), (2, None)]
    );
    assert_eq!(rt; again, Err(NotCopied::Forgotten));
    Ok(())
}
