// One task on a board, call by call: two workers take pages while a clerk writes between two steps of a commit.
#![tactic(auto)]

mod calls;
mod people;

use crate::calls::{Answer, Call, Reply, Shown};
use crate::people::{Caller, Clerk, IN_WORK, WAITING, Worker};
use board::Board;
use register::{Register128, Register1024};
use signature::Signature;
use std::io;
use thread_record::PlainRecord;
use write_buffer::Entry;

// Whose turn it is: `0` and `1` are workers, `c` is the scan clerk.
const TURNS: &str = "0000000cc0000000000011c0100c11111111111";

// A board, and where its calls are printed.
#[derive(Drop)]
struct Shift<'a, P, R, W> {
    rt: &'a P,
    board: Board<'a, 'a, 'a, 'a, 'a, R, W>,
}

impl<P: Print, R: Signature, W: Signature> Shift<'_, P, R, W> {
    // Makes a call and prints it with its answer.
    fn make(&mut self, name: &str, call: Call) -> io::Result<Answer> {
        let answer = call.on(&mut self.board);
        println!(self.rt; "{name}: {call}: {}", Shown(answer))?;
        Ok(answer)
    }

    fn turn(&mut self, name: &str, caller: &mut impl Caller) -> io::Result<()> {
        if let Some(call) = caller.next_call() {
            let answer = self.make(name, call)?;
            caller.hear(call, answer);
        }
        Ok(())
    }

    fn take_turns(&mut self) -> io::Result<()> {
        let mut first = Worker::new(0, 12);
        let mut second = Worker::new(1, 7);
        let mut clerk = Clerk::new(5);
        for who in TURNS.bytes() {
            // Three people of two kinds: a `&mut dyn Caller` would take the same three rows.
            match who {
                b'0' => self.turn("worker 0", &mut first)?,
                b'1' => self.turn("worker 1", &mut second)?,
                _ => self.turn("scan clerk", &mut clerk)?,
            }
        }
        Ok(())
    }

    // The handover clerk reads the finished counts.
    fn hand_over(&mut self) -> io::Result<()> {
        let waiting = self.make("handover clerk", Call::PlainRead(WAITING))?;
        let in_work = self.make("handover clerk", Call::PlainRead(IN_WORK))?;
        if let (Ok(Reply::Word(waiting)), Ok(Reply::Word(in_work))) = (waiting, in_work) {
            let both = waiting.saturating_add(in_work);
            println!(self.rt; "{waiting} waiting and {in_work} in work make {both}")?;
        }
        Ok(())
    }
}

fn main(rt: HostRuntime) -> io::Result<()> {
    let mut words = [0; 24];
    words[WAITING as usize] = 40;
    let mut board = Board {
        words: &mut words,
        records: &mut [PlainRecord::default(); 2],
        entries: &mut [Entry::default(); 64],
        reads: &mut [Register1024::new(); 2],
        writes: &mut [Register128::new(); 2],
    };
    let opened = history::open(&mut board).map(|()| Reply::Done);
    println!(rt; "open: {}", Shown(opened))?;
    let mut shift = Shift { rt: &rt, board };
    shift.take_turns()?;
    shift.hand_over()
}
