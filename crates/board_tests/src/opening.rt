use board::Board;
use refusal::Refusal;
use register::Register128;
use std::alloc::{AllocError, Global};
use std::test::Fail;
use thread_record::PlainRecord;
use write_buffer::Entry;

const GARBAGE: PlainRecord = PlainRecord {
    phase: 9,
    count: 40,
    cursor: 7,
    repeats: 5,
};

const ENTRY: Entry = Entry {
    address: 99,
    word: 7,
};

// What a board of so many words and threads answers when it is opened.
fn open(heap: Global, words: usize, threads: usize) -> Result<Result<(), Refusal>, AllocError> {
    let mut words = vec![in heap; 0; words]?;
    let mut records = vec![in heap; GARBAGE; threads]?;
    let mut entries = vec![in heap; ENTRY; threads.saturating_mul(32)]?;
    let mut reads = vec![in heap; Register128::new(); threads]?;
    let mut writes = vec![in heap; Register128::new(); threads]?;
    let mut board = Board {
        words: &mut words,
        records: &mut records,
        entries: &mut entries,
        reads: &mut reads,
        writes: &mut writes,
    };
    Ok(board.open())
}

#[test]
fn a_board_has_8_to_65536_words(rt: HostRuntime) -> Result<(), Fail> {
    assert_eq!(rt; open(rt.alloc(), 8, 1)?, Ok(()));
    assert_eq!(rt; open(rt.alloc(), 65536, 1)?, Ok(()));
    assert_eq!(rt; open(rt.alloc(), 65544, 1)?, Err(Refusal::WrongParts));
    assert_eq!(rt; open(rt.alloc(), 12, 1)?, Err(Refusal::WrongParts));
    assert_eq!(rt; open(rt.alloc(), 0, 1)?, Err(Refusal::WrongParts));
    Ok(())
}

#[test]
fn a_board_has_1_to_16_threads(rt: HostRuntime) -> Result<(), Fail> {
    assert_eq!(rt; open(rt.alloc(), 8, 16)?, Ok(()));
    assert_eq!(rt; open(rt.alloc(), 8, 17)?, Err(Refusal::WrongParts));
    assert_eq!(rt; open(rt.alloc(), 8, 0)?, Err(Refusal::WrongParts));
    Ok(())
}
