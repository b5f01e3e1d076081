// One line of a run.
ghost use Rattle.std.specs.Prelude.{◌≡◌, ℕ, IsTrue};
ghost use Rattle.eaw_face.specs.StoreView.{LeavesOnly};
ghost use Rattle.eaw_face.specs.Frame.{Frame, IsFrameIn, frame_bytes};
ghost use Rattle.frame_lines.specs.Taken.{IsBetween, Fed, Took, OpensFed, OpensTaken};

use crate::ended::FollowEnd;
use crate::frame_line::behind_word;
use array_shape::Shape;
use eaw_face::EawStore;
use mirror::{FollowFault, Follower, is_frame};
use script_text::read_hex;

/// Follows the `n`-th line if it says a frame, and passes it over if it is not meant so. `bytes` is memory for a frame. Returns how many
/// frames are applied by now, if one more is.
pub(crate) fn take_line<S: EawStore>(
    follower: &mut Follower<S>,
    shape: Shape,
    line: &[u8],
    n: u64,
    bytes: &mut Vec<u8>,
) -> Result<Option<u64>, FollowEnd>
    requires between { IsBetween follower.old }
    requires shape { (S.view follower.old.store).shape ≡ shape }
    ensures took { Took S.tells S.view shape n line.now follower.old follower.new result }
    ensures moments { IsTrue S.tells → LeavesOnly (OpensTaken S.view S.opens shape line.now follower.old) (S.view follower.old.store) (S.view follower.new.store) }
{
    let Some(text) = behind_word(line) else {
        return Ok(None);
    };
    match read_hex(text, bytes) {
        Ok(true) => {}
        Ok(false) => return Err(FollowEnd::BadFrame { line: n }),
        Err(_) => return Err(FollowEnd::NoMemory),
    }
    if !is_frame(bytes, shape) {
        return Err(FollowEnd::BadFrame { line: n });
    }
    let count = feed_frame(follower, bytes)?;
    Ok(Some(count))
}

// Feeds one whole frame. Returns how many are applied by now.
fn feed_frame<S: EawStore>(follower: &mut Follower<S>, bytes: &[u8]) -> Result<u64, FollowEnd>
    requires between { IsBetween follower.old }
    requires frame { (f : Frame) × IsFrameIn (S.view follower.old.store).shape f × (bytes.now ≡ frame_bytes f) }
    ensures fed { (f : Frame) → IsFrameIn (S.view follower.old.store).shape f → bytes.now ≡ frame_bytes f → Fed S.tells S.view f follower.old follower.new result }
    ensures moments { IsTrue S.tells → (f : Frame) → IsFrameIn (S.view follower.old.store).shape f → bytes.now ≡ frame_bytes f
        → LeavesOnly (OpensFed S.view S.opens f follower.old) (S.view follower.old.store) (S.view follower.new.store) }
{
    match follower.feed(bytes) {
        Ok(count) => Ok(count),
        Err(FollowFault::Gap { expected, got }) => Err(FollowEnd::Gap { expected, got }),
        Err(FollowFault::NoMemory) => Err(FollowEnd::NoMemory),
        // A whole frame is no bad one, and the follower is not dead.
        Err(FollowFault::Media) => Err(FollowEnd::MediaFault),
        Err(FollowFault::BadFrame) => Err(FollowEnd::MediaFault),
        Err(FollowFault::Dead) => Err(FollowEnd::MediaFault),
    }
}
