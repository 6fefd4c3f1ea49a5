//! Laws of frames, for the layers above. The function does nothing: its contract is proved.

ghost use Rattle.dw_unwind.specs.{Laws.{FaultsInFrame, WantedIsMissing}, Unwound.{OneFrame, SomeFrame}};

use dw_frame::frame_laws;
use dw_section::section_laws;

/// An accepted section gives a machine that stopped exactly one frame or fault, and the fault's column is the CFA or a register that the
/// frame lists. What a fault asks for is missing: so who gives it what it wants, and asks again, gets another answer.
pub fn unwind_laws()
    ensures frame { OneFrame }
    ensures some { SomeFrame }
    ensures column { FaultsInFrame }
    ensures wanted { WantedIsMissing }
{
    frame_laws();
    section_laws();
}
