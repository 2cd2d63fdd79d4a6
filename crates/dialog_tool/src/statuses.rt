// The statuses of endings.
ghost use Rattle.std.specs.Prelude.{◌≡◌};
ghost use Rattle.dialog_tool.specs.Promise.{status_of};

use crate::lines::{DONE, LIMIT};
use dg_base::Ending;

/// The status of an ending.
pub fn status_of(ending: Ending) -> u8
    ensures { result ≡ status_of ending }
{
    match ending {
        Ending::Done | Ending::Quit | Ending::Failed | Ending::Stopped | Ending::InputEnded => DONE,
        Ending::StepLimit
        | Ending::HeapLimit
        | Ending::TrailLimit
        | Ending::AuxLimit
        | Ending::KeepLimit => LIMIT,
    }
}
