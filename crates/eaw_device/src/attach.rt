// The steps of an opening, on the medium alone.
ghost use Rattle.std.specs.Prelude.{◌≡◌, ◌≢◌, ◌≤◌, [], true, None, IsTrue, IfOk, IfErr, OnOk};
ghost use Rattle.mars_base.specs.Costs.{Costs};
ghost use Rattle.pcm_media.specs.View.{Writes};
ghost use Rattle.array_shape.specs.Places.{media_len};
ghost use Rattle.row_bytes.specs.Header.{SaysShape};
ghost use Rattle.array_image.specs.Image.{data_of};
ghost use Rattle.array_image.specs.Decided.{settled_data};
ghost use Rattle.device_recovery.specs.Recovered.{rows_good, HasNoVote, quiet_calls};
ghost use Rattle.eaw_device.specs.Opens.{header_of, AttachCause, AttachLeaves, KeepsData};
ghost use Rattle.pcm_media.specs.Answer.{media_answer};
ghost use Rattle.eaw_device.specs.Sound.{IsClean};
ghost use Rattle.eaw_device.specs.Attaching.{AllSay, IsOfHeader, IsOfRecovery, is_of_media};

use crate::fault::AttachFault;
use array_shape::Shape;
use device_recovery::recover;
use pcm_media::Media;
use row_bytes::read_array_header;

/// The shape of the array, as the header of the medium says it. Nothing is written.
pub(crate) fn read_header<M: Media>(media: &mut M) -> Result<Shape, AttachFault>
    ensures shape { IsTrue M.tells → IfOk result (λ shape. SaysShape (header_of (M.view media.old).content.bytes) shape) }
    ensures sized { IfOk result (λ shape. (M.view media.old).size ≡ media_len shape) }
    ensures cause { IfErr result (AttachCause M.tells (M.view media.old) (M.view media.new).faults) }
    ensures kept { IfErr result (λ fault. fault ≢ AttachFault.Media → (M.view media.new).faults ≡ (M.view media.old).faults) }
    ensures fault { IfErr result IsOfHeader }
    ensures costs { Costs true 1 (M.view media.old).moment (M.view media.new).moment result }
    ensures does { Writes M.tells [] (M.view media.old) (M.view media.new) (media_answer is_of_media result) }
{
    if media.len() < 512 {
        return Err(AttachFault::NotMars);
    }
    let mut header = [0; 512];
    media.read(0, &mut header)?;
    Ok(read_array_header(&header, media.len())?)
}

/// Makes an array of this shape one at rest, by recovery. The header that was read is then durable, as all else is.
pub(crate) fn settle<M: Media>(media: &mut M, shape: &Shape) -> Result<(), AttachFault>
    requires size { (M.view media.old).size ≡ media_len shape.now }
    requires header { IsTrue M.tells → SaysShape (header_of (M.view media.old).content.bytes) shape.now }
    ensures clean { IsTrue M.tells → OnOk result (IsClean shape.now (M.view media.new).content) }
    ensures header { IsTrue M.tells → OnOk result (AllSay shape.now (M.view media.new).content) }
    ensures settled { IsTrue M.tells → OnOk result (data_of shape.now (M.view media.new).content.bytes ≡ settled_data shape.now (M.view media.old).content.bytes) }
    ensures good { IsTrue M.tells → OnOk result (rows_good shape.now (M.view media.old).content.bytes None) }
    ensures cause { IfErr result (AttachCause M.tells (M.view media.old) (M.view media.new).faults) }
    ensures fault { IfErr result IsOfRecovery }
    ensures unwritten { IfErr result (AttachLeaves M.tells (M.view media.old) (M.view media.new)) }
    ensures costs { IsTrue M.tells → HasNoVote shape.now (M.view media.old).content.bytes → Costs true (quiet_calls shape.now) (M.view media.old).moment (M.view media.new).moment result }
    ensures keeps { KeepsData M.tells (M.view media.old) (M.view media.new).moment (M.view media.new).left_since }
    ensures size { (M.view media.new).size ≡ (M.view media.old).size }
    ensures device { (M.view media.new).device ≡ (M.view media.old).device }
    ensures faults { OnOk result ((M.view media.new).faults ≡ (M.view media.old).faults) }
    ensures kept { IfErr result (λ fault. fault ≢ AttachFault.Media → (M.view media.new).faults ≡ (M.view media.old).faults) }
    ensures later { (M.view media.old).faults ≤ (M.view media.new).faults }
{
    recover(media, shape)?;
    Ok(())
}
