// The steps of a commit: fetch, pass, copy, end.
ghost use Rattle.std.specs.Prelude.{◌<◌, ◌≤◌, length};
ghost use Rattle.thread_record.specs.declared.phase.Phase.TheVariants.{Validating, Copying};
ghost use Rattle.board.specs.Admissions.{Admitted, Ready};
ghost use Rattle.board.specs.Refusals.{step};
ghost use Rattle.board.specs.Rules.{AtCursor, step_event};
ghost use Rattle.board.specs.Views.{Called, Done, view};

use crate::parts::Board;
use crate::rows::reset_at;
use conflict::line::line_of;
use conflict::meeting::one_more;
use conflict::{Access, Effect, Request};
use refusal::{Nack, Refusal, Stepped};
use signature::Signature;
use thread_record::{Phase, Record};
use write_buffer::Entry;

impl<'w, 'r, 'e, 's, 'x, R: Signature, W: Signature> Board<'w, 'r, 'e, 's, 'x, R, W> {
    pub fn step(&mut self, thread: u32) -> Result<Stepped, Refusal>
        ensures { Called R.Signature W.Signature (step thread) (step_event thread) self.old result self.new }
    {
        let record = self.check_thread(thread)?;
        // Phase and cursor choose together, as the rules say.
        match (record.phase, record.cursor < record.count) {
            (Phase::Validating, true) => Ok(self.fetch(thread, record)),
            (Phase::Validating, false) => Ok(self.pass(thread, record)),
            (Phase::Copying, true) => Ok(self.copy(thread, record)),
            (Phase::Copying, false) => Ok(self.end(thread, record)),
            (Phase::Aborted, _) => Err(Refusal::Aborted(thread)),
            (Phase::Idle, _) => Err(Refusal::WrongPhase(Phase::Idle)),
            (Phase::Running, _) => Err(Refusal::WrongPhase(Phase::Running)),
        }
    }

    // The entry at the cursor.
    fn entry_at(&self, thread: u32, before: Record) -> Entry
        requires admitted { Admitted thread before self.now }
        requires counted { before.cursor < before.count }
        ensures on_board { result.address < length self.now.words.now }
        ensures at_cursor { (d : R) (e : W) → AtCursor ((view self.now d e).thread thread) result }
    {
        self.buffer(thread as usize, before)[before.cursor as usize]
    }

    // Asks for the line of the entry at the cursor.
    fn fetch(&mut self, thread: u32, before: Record) -> Stepped
        requires ready { Ready R.Signature W.Signature (step thread) Validating thread before self.old }
        requires counted { before.cursor < before.count }
        ensures { Done R.Signature W.Signature (step_event thread result) self.old self.new }
    {
        let t = thread as usize;
        let entry = self.entry_at(thread, before);
        let asked = self.ask(Request {
            access: Access::Exclusive,
            from: Some(thread),
            line: line_of(entry.address),
        });
        match asked {
            Ok(()) => {
                self.store_record(t, before.advanced());
                Stepped::Fetched
            }
            Err(Nack { by }) => match one_more(before.repeats) {
                Effect::Aborts => {
                    self.clear(t, Phase::Aborted);
                    Stepped::Lost
                }
                _ => {
                    self.rewind(t);
                    Stepped::Repeated(by)
                }
            },
        }
    }

    // All lines are fetched: the transaction has passed.
    fn pass(&mut self, thread: u32, before: Record) -> Stepped
        requires ready { Ready R.Signature W.Signature (step thread) Validating thread before self.old }
        requires at_end { before.count ≤ before.cursor }
        ensures { Done R.Signature W.Signature (step_event thread result) self.old self.new }
    {
        let t = thread as usize;
        self.store_record(t, before.passed());
        reset_at(self.reads, t);
        Stepped::Passed
    }

    // Stores the word of the entry at the cursor.
    fn copy(&mut self, thread: u32, before: Record) -> Stepped
        requires ready { Ready R.Signature W.Signature (step thread) Copying thread before self.old }
        requires counted { before.cursor < before.count }
        ensures { Done R.Signature W.Signature (step_event thread result) self.old self.new }
    {
        let entry = self.entry_at(thread, before);
        self.store_word(entry.address, entry.word);
        self.store_record(thread as usize, before.advanced());
        Stepped::Copied
    }

    // All words are copied: the transaction has ended.
    fn end(&mut self, thread: u32, before: Record) -> Stepped
        requires ready { Ready R.Signature W.Signature (step thread) Copying thread before self.old }
        requires at_end { before.count ≤ before.cursor }
        ensures { Done R.Signature W.Signature (step_event thread result) self.old self.new }
    {
        let t = thread as usize;
        self.store_record(t, Record::cleared(Phase::Idle));
        reset_at(self.writes, t);
        Stepped::Ended
    }
}
