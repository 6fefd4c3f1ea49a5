//! Laws of frames, for the layers above. The function does nothing: its contract is proved.

ghost use Rattle.dw_frame.specs.Laws.{FaultsInRow, OneOfRow, SomeOfRow, WantedOfRow};

use dw_eval::evaluation_laws;
use dw_op::block_laws;

/// A row gives a machine that stopped at most one frame or fault, and exactly one if it fits. The fault's column is the CFA or a register that the
/// frame lists. What a fault asks for is missing: so who gives it what it wants, and asks again, gets another answer.
pub fn frame_laws()
    ensures one { OneOfRow }
    ensures some { SomeOfRow }
    ensures column { FaultsInRow }
    ensures wanted { WantedOfRow }
{
    evaluation_laws();
    block_laws();
}
