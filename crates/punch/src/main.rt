// Punches a card: inserts the lines of standard input into a signature of each kind, and prints what became of them.
#![tactic(auto)]

use both::Both;
use card::listing::{insertion, summary};
use coarse::Coarse;
use line_list::LineList;
use line_text::read;
use register::{Register, Register128, Register1024};
use std::alloc::Global;
use std::io;
use std::io::Read;
use std::process::ExitCode;

// Inserts the lines into a register, and says what became of it.
fn punch_register<const WORDS: usize>(
    heap: Global,
    name: &str,
    mut register: Register<WORDS>,
    lines: &[u16],
) -> io::Result<String> {
    let hits = summary(heap, name, &mut register, lines)?;
    let ones = register.ones();
    let width = 64 * WORDS;
    Ok(format!(in heap; "{hits}, {ones} of {width} bits set")?)
}

// Inserts the lines into a signature of each kind, and says of each what became of it.
fn punch(heap: Global, lines: &[u16]) -> io::Result<[String; 5]> {
    let wide = punch_register(heap, "1024-bit register", Register1024::new(), lines)?;
    let narrow = punch_register(heap, "128-bit register", Register128::new(), lines)?;
    let list = summary(heap, "list", &mut LineList::new(), lines)?;
    let first = Register128::new();
    let second = LineList::new();
    let both = summary(heap, "both", &mut Both { first, second }, lines)?;
    let below = LineList::new();
    let coarse = summary(heap, "coarse", &mut Coarse { below }, lines)?;
    Ok([wide, narrow, list, both, coarse])
}

fn show_insertions(rt: &HostRuntime, lines: &[u16]) -> io::Result<()> {
    let wide = Register1024::new();
    let narrow = Register128::new();
    for line in lines {
        rt.println(insertion(rt.alloc(), *line, &wide.bits(*line), &narrow.bits(*line))?)?;
    }
    Ok(())
}

// The lines are inserted before anything is said of them, also where a malformed line ends the run.
fn main(rt: HostRuntime) -> io::Result<ExitCode> {
    let mut text = Vec::new(rt.alloc());
    rt.stdin().read_to_end(&mut text)?;
    let reading = read(rt.alloc(), &text)?;
    let summaries = punch(rt.alloc(), &reading.lines)?;
    show_insertions(&rt, &reading.lines)?;
    if let Some(place) = reading.malformed {
        eprintln!(rt; "input line {place} is no number below 65536")?;
        return Ok(ExitCode::FAILURE);
    }
    for text in summaries {
        rt.println(text)?;
    }
    Ok(ExitCode::SUCCESS)
}
