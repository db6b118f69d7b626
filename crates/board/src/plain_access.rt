// Reads and writes of single words, outside any transaction.
ghost use Rattle.board.specs.Refusals.{plain_read, plain_write};
ghost use Rattle.board.specs.Rules.{plain_got, plain_put};
ghost use Rattle.board.specs.Views.{Called};

use crate::parts::Board;
use conflict::line::line_of;
use conflict::{Access, Request};
use refusal::Refusal;
use signature::Signature;

impl<'w, 'r, 'e, 's, 'x, R: Signature, W: Signature> Board<'w, 'r, 'e, 's, 'x, R, W> {
    pub fn plain_read(&mut self, address: u32) -> Result<u32, Refusal>
        ensures { Called R.Signature W.Signature (plain_read address) (λ word. plain_got address word) self.old result self.new }
    {
        self.check_plain(address)?;
        self.ask(Request {
            access: Access::Shared,
            from: None,
            line: line_of(address),
        })?;
        Ok(self.word_at(address))
    }

    pub fn plain_write(&mut self, address: u32, word: u32) -> Result<(), Refusal>
        ensures { Called R.Signature W.Signature (plain_write address word) (λ _. plain_put address word) self.old result self.new }
    {
        self.check_plain(address)?;
        self.ask(Request {
            access: Access::Exclusive,
            from: None,
            line: line_of(address),
        })?;
        self.store_word(address, word);
        Ok(())
    }
}
