// What a reply says of its call.
ghost use Rattle.std.specs.Prelude.{◌≡◌};
ghost use Rattle.caller_steps.specs.Fate.{is_refusal};

use history::Reply;

/// Whether a call was not done.
pub fn is_refusal(reply: &Reply) -> bool
    ensures { result ≡ is_refusal reply.now }
{
    match reply {
        Reply::Fine
        | Reply::Found(_)
        | Reply::Absent
        | Reply::Listed(_)
        | Reply::Saved(_)
        | Reply::Committed(_)
        | Reply::Purged(_) => false,
        _ => true,
    }
}
