use board::Board;
use refusal::{Refusal, Stepped};
use register::{Register128, Register1024};
use std::test::Fail;
use thread_record::{Phase, PlainRecord};
use write_buffer::Entry;

// A board whose two records start as the given one.
macro_rules! board_of {
    ($record:expr) => {
        Board {
            words: &mut [0; 320],
            records: &mut [$record; 2],
            entries: &mut [Entry::default(); 64],
            reads: &mut [Register1024::new(); 2],
            writes: &mut [Register128::new(); 2],
        }
    };
}

#[test]
fn a_33rd_address_is_refused_and_a_held_one_is_not(rt: HostRuntime) -> Result<(), Fail> {
    let mut board = board_of!(PlainRecord::default());
    board.begin(0)?;
    (0..32).try_for_each(|address| board.write(0, address, address))?;
    assert_eq!(rt; board.write(0, 32, 1), Err(Refusal::BufferFull(0)));
    assert_eq!(rt; board.write(0, 31, 1), Ok(()));
    assert_eq!(rt; board.read(0, 31), Ok(1));
    Ok(())
}

#[test]
fn without_writes_a_commit_passes_and_ends(rt: HostRuntime) -> Result<(), Fail> {
    let mut board = board_of!(PlainRecord::default());
    board.begin(1)?;
    board.commit(1)?;
    assert_eq!(rt; board.step(1), Ok(Stepped::Passed));
    assert_eq!(rt; board.step(1), Ok(Stepped::Ended));
    assert_eq!(rt; board.step(1), Err(Refusal::WrongPhase(Phase::Idle)));
    Ok(())
}

// Thread 0 copies on the line that thread 1 asks for; its own fetch was the first to send thread 1 back.
#[test]
fn four_repeats_and_a_nacked_fetch_are_lost(rt: HostRuntime) -> Result<(), Fail> {
    let mut board = board_of!(PlainRecord::default());
    board.begin(1)?;
    board.write(1, 9, 1)?;
    board.commit(1)?;
    board.begin(0)?;
    board.write(0, 8, 1)?;
    board.commit(0)?;
    assert_eq!(rt; board.step(0), Ok(Stepped::Fetched));
    assert_eq!(rt; board.step(0), Ok(Stepped::Passed));
    for _ in 0..3 {
        assert_eq!(rt; board.step(1), Ok(Stepped::Repeated(0)));
    }
    assert_eq!(rt; board.step(1), Ok(Stepped::Lost));
    assert_eq!(rt; board.step(1), Err(Refusal::Aborted(1)));
    assert_eq!(rt; board.abandon(1), Ok(()));
    Ok(())
}

#[test]
fn the_upper_row_of_the_table_wins(rt: HostRuntime) -> Result<(), Fail> {
    let mut board = board_of!(PlainRecord::default());
    assert_eq!(rt; board.read(2, 320), Err(Refusal::NoThread(2)));
    assert_eq!(rt; board.read(0, 320), Err(Refusal::NoAddress(320)));
    assert_eq!(rt; board.read(0, 319), Err(Refusal::WrongPhase(Phase::Idle)));
    assert_eq!(rt; board.plain_read(320), Err(Refusal::NoAddress(320)));
    Ok(())
}

// A running record beyond its limits is read as one with 32 entries, all of them for address 0.
#[test]
fn garbage_in_a_record_is_read_by_its_limits(rt: HostRuntime) -> Result<(), Fail> {
    let running = PlainRecord {
        phase: 1,
        count: 40,
        cursor: 7,
        repeats: 9,
    };
    let mut board = board_of!(running);
    assert_eq!(rt; board.write(0, 1, 5), Err(Refusal::BufferFull(0)));
    assert_eq!(rt; board.write(0, 0, 5), Ok(()));
    assert_eq!(rt; board.read(0, 0), Ok(5));
    assert_eq!(rt; board.commit(1), Ok(()));
    assert_eq!(rt; board.step(1), Ok(Stepped::Fetched));
    Ok(())
}
