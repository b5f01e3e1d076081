// What calls and replies say of a caller's transaction.
ghost use Rattle.std.specs.Prelude.{◌≡◌};
ghost use Rattle.mars_manager.specs.Locks.{is_end, is_last, takes_after};

use caller_steps::is_refusal;
use history::{Call, Control, Reply};

// Whether its caller has no transaction after a call, if it is done.
pub fn is_end(call: &Call) -> bool
    ensures { result ≡ is_end call.now }
{
    matches!(
        call,
        Call::Control(Control::Commit | Control::Abort | Control::Settle | Control::Purge)
    )
}

// Whether its caller has no transaction that takes calls after a call, if it is done.
fn is_last(call: &Call) -> bool
    ensures { result ≡ is_last call.now }
{
    matches!(call, Call::Control(_))
}

// Whether a caller has a live transaction that takes calls, after a call.
pub fn takes_after(takes: bool, call: &Call, reply: &Reply) -> bool
    ensures { result ≡ takes_after takes call.now reply.now }
{
    if matches!(reply, Reply::Media) {
        return takes && !matches!(call, Call::Control(Control::Commit | Control::Settle));
    }
    if is_refusal(reply) {
        return takes;
    }
    !is_last(call)
}
