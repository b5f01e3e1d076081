// The transactions of a history.
ghost use Rattle.std.specs.Prelude.{[], ◌∷◌, ◌++◌, codes, decimal};
ghost use Rattle.std.specs.List.{flat_map};
ghost use Rattle.texts.specs.Written.{Appends};
ghost use Rattle.script_text.specs.Replies.{reply_line};
ghost use Rattle.history_text.specs.Text.{done_lines};

use history::{Calls, Done};
use script_text::put_kept;
use texts::{Piece, TextOut, put_pieces};

/// Puts the lines of each transaction.
pub fn put_history<E, T: TextOut<E>>(out: &mut T, history: &[Done]) -> Result<(), E>
    ensures { Appends T.tells (T.view out.old) (T.view out.new) result (flat_map done_lines history.now) }
{
    for done in history {
        put_done(out, done)?;
    }
    Ok(())
}

fn put_done<E, T: TextOut<E>>(out: &mut T, done: &Done) -> Result<(), E>
    ensures { Appends T.tells (T.view out.old) (T.view out.new) result (done_lines done.now) }
{
    put_head(out, done)?;
    put_replies(out, done.caller, &done.calls)
}

// Puts the line with a transaction's number and caller.
fn put_head<E, T: TextOut<E>>(out: &mut T, done: &Done) -> Result<(), E>
    ensures { Appends T.tells (T.view out.old) (T.view out.new) result (codes "txn " ++ decimal done.now.at ++ codes " caller " ++ decimal done.now.caller ++ 10 ∷ []) }
{
    put_pieces(
        out,
        &[
            Piece::Words(b"txn "),
            Piece::Number(done.at),
            Piece::Words(b" caller "),
            Piece::Number(u64::from(done.caller)),
            Piece::Words(b"\n"),
        ],
    )
}

fn put_replies<E, T: TextOut<E>>(out: &mut T, caller: u8, calls: &Calls) -> Result<(), E>
    ensures { Appends T.tells (T.view out.old) (T.view out.new) result (flat_map (λ entry. reply_line caller entry.1) calls.now) }
{
    let mut left = calls.entries();
    while let Some((told, rest)) = left.next_told() {
        put_kept(out, caller, &told)?;
        left = rest;
    }
    Ok(())
}
