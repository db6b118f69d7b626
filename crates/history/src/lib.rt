// Opening a board, with the promise that every run of its calls is serial.
#![tactic(auto)]

ghost use Rattle.std.specs.Prelude.{OnOk};
ghost use Rattle.board.specs.Views.{Opens, view};
ghost use Rattle.history.specs.Law.{SerialOrder};

use board::Board;
use refusal::Refusal;
use signature::Signature;

// From the board that it leaves, any calls in any order account for themselves by the order in which transactions pass.
pub fn open<R: Signature, W: Signature>(
    board: &mut Board<'_, '_, '_, '_, '_, R, W>,
) -> Result<(), Refusal>
    ensures opens { Opens R.Signature W.Signature board.old result board.new }
    ensures serial { OnOk result ((d : R) (e : W) → SerialOrder R.Signature W.Signature (view board.new d e)) }
{
    board.open()
}
