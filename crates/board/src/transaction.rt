// The calls of a transaction, from begin to commit.
ghost use Rattle.board.specs.Refusals.{begin, read, write, commit, abandon};
ghost use Rattle.board.specs.Rules.{began, got, put, committed, abandoned};
ghost use Rattle.board.specs.Views.{Called};

use crate::parts::Board;
use crate::rows::insert_at;
use conflict::line::line_of;
use conflict::{Access, Request};
use refusal::Refusal;
use refusal::rows::{check_abandonable, check_phase, check_room};
use signature::Signature;
use thread_record::{Phase, Record};
use write_buffer::Entry;
use write_buffer::scan::{look_up, place_of};

impl<'w, 'r, 'e, 's, 'x, R: Signature, W: Signature> Board<'w, 'r, 'e, 's, 'x, R, W> {
    pub fn begin(&mut self, thread: u32) -> Result<(), Refusal>
        ensures { Called R.Signature W.Signature (begin thread) (λ _. began thread) self.old result self.new }
    {
        let record = self.check_thread(thread)?;
        check_phase(record.phase, Phase::Idle, thread)?;
        self.clear(thread as usize, Phase::Running);
        Ok(())
    }

    pub fn read(&mut self, thread: u32, address: u32) -> Result<u32, Refusal>
        ensures { Called R.Signature W.Signature (read thread address) (λ word. got thread address word) self.old result self.new }
    {
        let record = self.check_access(thread, address)?;
        let t = thread as usize;
        if let Some(word) = look_up(self.buffer(t, record), address) {
            return Ok(word);
        }
        let line = line_of(address);
        self.ask(Request {
            access: Access::Shared,
            from: Some(thread),
            line,
        })?;
        insert_at(self.reads, t, line);
        Ok(self.word_at(address))
    }

    pub fn write(&mut self, thread: u32, address: u32, word: u32) -> Result<(), Refusal>
        ensures { Called R.Signature W.Signature (write thread address word) (λ _. put thread address word) self.old result self.new }
    {
        let before = self.check_access(thread, address)?;
        let t = thread as usize;
        let place = place_of(self.buffer(t, before), address);
        check_room(place, thread)?;
        self.store_entry(t, place, Entry { address, word });
        self.store_record(t, Record::running(before.count.max(place as u32 + 1)));
        insert_at(self.writes, t, line_of(address));
        Ok(())
    }

    pub fn commit(&mut self, thread: u32) -> Result<(), Refusal>
        ensures { Called R.Signature W.Signature (commit thread) (λ _. committed thread) self.old result self.new }
    {
        let before = self.check_thread(thread)?;
        check_phase(before.phase, Phase::Running, thread)?;
        self.store_record(thread as usize, before.committed());
        Ok(())
    }

    pub fn abandon(&mut self, thread: u32) -> Result<(), Refusal>
        ensures { Called R.Signature W.Signature (abandon thread) (λ _. abandoned thread) self.old result self.new }
    {
        let record = self.check_thread(thread)?;
        check_abandonable(record.phase)?;
        self.clear(thread as usize, Phase::Idle);
        Ok(())
    }
}
