// Who takes turns on the board: each says what to call next, and hears the answer.
use crate::calls::{Answer, Call, Reply};
use refusal::{Refusal, Stepped};

// Pages that wait to be recognised, and pages that a worker has in work.
pub const WAITING: u32 = 0;

pub const IN_WORK: u32 = 8;

// The morning's scans are in.
const MARK: u32 = 1;

pub trait Caller {
    // None once there is nothing left to call.
    fn next_call(&self) -> Option<Call>;

    fn hear(&mut self, call: Call, answer: Answer);
}

// A worker that takes pages from waiting to in work by one transaction.
#[derive(Drop)]
pub struct Worker {
    pages: u32,
    waiting: u32,
    in_work: u32,
    next: Option<Call>,
}

impl Worker {
    pub(crate) fn new(thread: u32, pages: u32) -> Worker {
        Worker {
            pages,
            waiting: 0,
            in_work: 0,
            next: Some(Call::Begin(thread)),
        }
    }

    // What to call after a call that was accepted; a step is made again until one ends.
    fn after(&mut self, call: Call, reply: Reply) -> Option<Call> {
        match (call, reply) {
            (Call::Begin(t), _) => Some(Call::Read(t, WAITING)),
            (Call::Read(t, WAITING), Reply::Word(pages)) => {
                self.waiting = pages;
                Some(Call::Read(t, IN_WORK))
            }
            (Call::Read(t, _), Reply::Word(pages)) => {
                self.in_work = pages;
                Some(Call::Write(t, WAITING, self.waiting.saturating_sub(self.pages)))
            }
            (Call::Write(t, WAITING, _), _) => {
                Some(Call::Write(t, IN_WORK, self.in_work.saturating_add(self.pages)))
            }
            (Call::Write(t, ..), _) => Some(Call::Commit(t)),
            (Call::Commit(t), _) => Some(Call::Step(t)),
            (Call::Step(t), Reply::Step(Stepped::Lost)) => Some(Call::Abandon(t)),
            (Call::Step(_), Reply::Step(Stepped::Ended)) => None,
            (Call::Abandon(t), _) => Some(Call::Begin(t)),
            _ => Some(call),
        }
    }
}

impl Caller for Worker {
    fn next_call(&self) -> Option<Call> {
        self.next
    }

    // An aborted transaction is abandoned and begun again; any other refused call is made again.
    fn hear(&mut self, call: Call, answer: Answer) {
        self.next = match answer {
            Ok(reply) => self.after(call, reply),
            Err(Refusal::Aborted(t)) => Some(Call::Abandon(t)),
            Err(_) => Some(call),
        };
    }
}

// A clerk that counts the pages just scanned, and then says that the morning's scans are in.
#[derive(Drop)]
pub struct Clerk {
    pages: u32,
    next: Option<Call>,
}

impl Clerk {
    pub(crate) fn new(pages: u32) -> Clerk {
        Clerk {
            pages,
            next: Some(Call::PlainRead(WAITING)),
        }
    }
}

impl Caller for Clerk {
    fn next_call(&self) -> Option<Call> {
        self.next
    }

    fn hear(&mut self, call: Call, answer: Answer) {
        self.next = match (call, answer) {
            (Call::PlainRead(_), Ok(Reply::Word(waiting))) => {
                Some(Call::PlainWrite(WAITING, waiting.saturating_add(self.pages)))
            }
            (Call::PlainWrite(WAITING, _), Ok(_)) => Some(Call::PlainWrite(MARK, 1)),
            (Call::PlainWrite(..), Ok(_)) => None,
            _ => Some(call),
        };
    }
}
