// A caller on a thread, beside others. Each has a pass of its own, and makes its calls with it.
ghost use Rattle.std.specs.Prelude.{◌≡◌};

use caller_steps::Core;
use history::{Call, Control, Reply, TableCall, main_table};
use mars_manager::{Mars, Pass};
use record_slots::Value;
use std::sync::Wait;

/// Puts a value as one transaction of the pass, and answers the last reply: `Committed`, or why not, as `Busy`.
pub fn put_one<R: Wait, C: Core + Drop>(
    rt: &R,
    mars: &Mars<C>,
    pass: &mut Pass<C>,
    key: u64,
    value: Value,
) -> Reply
    requires { pass.old.table ≡ mars.now.table }
    ensures { pass.new.table ≡ pass.old.table }
{
    let _ = mars.call_wait(rt, pass, &Call::Begin);
    let put = Call::Table(TableCall::Put {
        table: main_table(),
        key,
        value,
    });
    match mars.call_wait(rt, pass, &put) {
        Reply::Fine => mars.call_wait(rt, pass, &Call::Control(Control::Commit)),
        refused => {
            let _ = mars.call_wait(rt, pass, &Call::Control(Control::Abort));
            refused
        }
    }
}
