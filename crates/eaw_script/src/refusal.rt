ghost use Rattle.std.specs.Prelude.{◌≡◌};
ghost use Rattle.eaw_script.specs.Performed.{refusal_of};

use eaw_face::EawFault;
use mars_base::Failed;
use script_text::Answer;

/// The answer for a refusal of the store. A store that is dead has met a fault of the medium before.
pub fn refusal(fault: EawFault) -> Result<Answer<'static>, Failed>
    ensures { result ≡ refusal_of fault }
{
    match fault {
        EawFault::UnknownTid { .. } => Ok(Answer::Unknown),
        EawFault::LogFull {
            logger,
            held,
            needed,
        } => Ok(Answer::LogFull {
            logger,
            held,
            needed,
        }),
        EawFault::Media => Err(Failed),
        EawFault::Dead => Err(Failed),
    }
}
