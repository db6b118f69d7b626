// Opening a board.
ghost use Rattle.board.specs.Views.{Opens};

use crate::parts::Board;
use refusal::Refusal;
use signature::Signature;
use thread_record::Phase;

impl<'w, 'r, 'e, 's, 'x, R: Signature, W: Signature> Board<'w, 'r, 'e, 's, 'x, R, W> {
    // Every thread idle and every signature reset; words and entries stay.
    pub fn open(&mut self) -> Result<(), Refusal>
        ensures { Opens R.Signature W.Signature self.old result self.new }
    {
        self.check_parts()?;
        // By number, since each turn changes the whole board.
        for t in 0..self.records.len() {
            self.clear(t, Phase::Idle);
        }
        Ok(())
    }
}
