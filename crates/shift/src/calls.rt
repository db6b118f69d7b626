// The calls that people make on a board, and what they are answered.
use board::Board;
use refusal::{Refusal, Stepped};
use signature::Signature;
use std::fmt;

#[derive(Clone, Copy)]
pub enum Call {
    Begin(u32),
    Read(u32, u32),
    Write(u32, u32, u32),
    Commit(u32),
    Step(u32),
    Abandon(u32),
    PlainRead(u32),
    PlainWrite(u32, u32),
}

// What an accepted call gives.
#[derive(Clone, Copy)]
pub enum Reply {
    Done,
    Word(u32),
    Step(Stepped),
}

pub type Answer = Result<Reply, Refusal>;

// An answer as it is printed, since a `Result` has no `Display`.
#[derive(Clone, Copy)]
pub struct Shown(pub Answer);

impl Call {
    pub(crate) fn on<R: Signature, W: Signature>(
        self,
        board: &mut Board<'_, '_, '_, '_, '_, R, W>,
    ) -> Answer {
        match self {
            Call::Begin(t) => board.begin(t).map(|()| Reply::Done),
            Call::Read(t, a) => board.read(t, a).map(Reply::Word),
            Call::Write(t, a, v) => board.write(t, a, v).map(|()| Reply::Done),
            Call::Commit(t) => board.commit(t).map(|()| Reply::Done),
            Call::Step(t) => board.step(t).map(Reply::Step),
            Call::Abandon(t) => board.abandon(t).map(|()| Reply::Done),
            Call::PlainRead(a) => board.plain_read(a).map(Reply::Word),
            Call::PlainWrite(a, v) => board.plain_write(a, v).map(|()| Reply::Done),
        }
    }
}

impl fmt::Display for Call {
    fn fmt<F: fmt::Write>(&self, f: &mut fmt::Formatter<F>) -> fmt::Result {
        match *self {
            Call::Begin(_) => f.write_str("begin"),
            Call::Read(_, a) | Call::PlainRead(a) => write!(f, "read {a}"),
            Call::Write(_, a, v) | Call::PlainWrite(a, v) => write!(f, "write {a} {v}"),
            Call::Commit(_) => f.write_str("commit"),
            Call::Step(_) => f.write_str("step"),
            Call::Abandon(_) => f.write_str("abandon"),
        }
    }
}

impl fmt::Display for Shown {
    fn fmt<F: fmt::Write>(&self, f: &mut fmt::Formatter<F>) -> fmt::Result {
        match self.0 {
            Ok(Reply::Done) => f.write_str("ok"),
            Ok(Reply::Word(v)) => write!(f, "= {v}"),
            Ok(Reply::Step(Stepped::Repeated(j))) => write!(f, "repeated {j}"),
            Ok(Reply::Step(Stepped::Fetched)) => f.write_str("fetched"),
            Ok(Reply::Step(Stepped::Lost)) => f.write_str("lost"),
            Ok(Reply::Step(Stepped::Passed)) => f.write_str("passed"),
            Ok(Reply::Step(Stepped::Copied)) => f.write_str("copied"),
            Ok(Reply::Step(Stepped::Ended)) => f.write_str("ended"),
            Err(refusal) => write!(f, "no {}", refusal.number()),
        }
    }
}
