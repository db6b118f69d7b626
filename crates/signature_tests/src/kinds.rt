use both::Both;
use coarse::Coarse;
use line_list::LineList;
use register::{Register, Register128, Register1024};
use signature::Signature;
use single_bit::SingleBit;

// A register told this line alone has just these bits, which stand in ascending order.
fn sets_just<const WORDS: usize>(register: &mut Register<WORDS>, line: u16, bits: &[u16]) -> bool {
    register.reset();
    register.insert(line);
    let named = register.bits(line);
    bits.iter().all(|bit| named.contains(bit)) && register.ones() == bits.len()
}

// Of the lines below 65,535, just these hit.
fn hits_just<S: Signature>(signature: &S, lines: &[u16]) -> bool {
    (0..u16::MAX).all(|line| signature.hit(line) == lines.contains(&line))
}

fn hits_everywhere<S: Signature>(signature: &S) -> bool {
    (0..u16::MAX).all(|line| signature.hit(line))
}

#[test]
fn a_line_sets_its_bits_and_no_others(rt: HostRuntime) {
    let mut wide = Register1024::new();
    let mut narrow = Register128::new();
    assert!(rt; sets_just(&mut wide, 1, &[0, 1, 32, 512]));
    assert!(rt; sets_just(&mut narrow, 1, &[0, 1, 32]));
    assert!(rt; sets_just(&mut wide, 3, &[0, 3, 48, 576]));
    assert!(rt; sets_just(&mut narrow, 3, &[0, 3, 48, 64]));
}

#[test]
fn a_narrow_register_hits_falsely(rt: HostRuntime) {
    let mut narrow = Register128::new();
    assert!(rt; sets_just(&mut narrow, 128, &[0, 16]));
    assert!(rt; narrow.hit(0));
    assert!(rt; !narrow.hit(1));
    narrow.reset();
    assert_eq!(rt; narrow.ones(), 0);
}

#[test]
fn both_hits_where_both_hit(rt: HostRuntime) {
    let mut both = Both {
        first: Register128::new(),
        second: LineList::new(),
    };
    both.insert(128);
    assert!(rt; hits_just(&both, &[128]));
    both.reset();
    assert!(rt; hits_just(&both, &[]));
}

#[test]
fn a_list_overflows_at_the_17th_line(rt: HostRuntime) {
    let lines = [
        0, 7, 1, 65534, 8, 16, 32, 64, 128, 256, 512, 1024, 2048, 4096, 8192, 9,
    ];
    let mut list = LineList::new();
    for line in lines {
        list.insert(line);
        list.insert(7);
    }
    assert!(rt; hits_just(&list, &lines));
    list.insert(65535);
    assert!(rt; hits_everywhere(&list));
    list.reset();
    assert!(rt; hits_just(&list, &[]));
}

#[test]
fn coarse_hits_on_groups_and_piles(rt: HostRuntime) {
    let mut coarse = Coarse {
        below: LineList::new(),
    };
    coarse.insert(5);
    assert!(rt; hits_just(&coarse, &[4, 5, 6, 7]));
    let mut pile = Both {
        first: SingleBit::new(),
        second: coarse,
    };
    assert!(rt; hits_just(&pile, &[]));
    pile.insert(20);
    assert!(rt; hits_just(&pile, &[4, 5, 6, 7, 20, 21, 22, 23]));
}

#[test]
fn a_single_bit_hits_everywhere_once_told(rt: HostRuntime) {
    let mut bit = SingleBit::new();
    assert!(rt; hits_just(&bit, &[]));
    bit.insert(40);
    assert!(rt; hits_everywhere(&bit));
    bit.reset();
    assert!(rt; hits_just(&bit, &[]));
}
