// Runs the search on known boards, in memory full of rubbish. Each line: a label, the answer, the pops, the moves of
// the list; the words or bytes that are not zero after it, of the nodes, the waiting, the keys and the costs; the bytes
// behind the list that are as they were; the list's records.
#![tactic(auto)]

use board::Board;
use saying::Hex;
use std::io;

// What the list buffer holds before a search.
const MARK: u8 = 7;

// A label, the budget, whether a partial list is asked for, room for how many nodes, the bytes of the list buffer.
type Trial = (&'static str, usize, bool, u8, usize);

// The spade king alone is left, in column 0.
const KING: (&[u8], &[Trial]) = (
    b"\x00\x12\x01\xff\xff\xff\xff\x0d\x0d\x0d\x0c\x01\xd3\x00\x00\x00\x00\x00\x00\x00",
    &[
        ("S_budget_0", 0, false, 64, 1000),
        ("S_budget_1", 1, false, 64, 1000),
        ("S_budget_1_partial", 1, true, 64, 1000),
        ("S_budget_2", 2, false, 64, 1000),
        ("S_budget_1000000", 1_000_000, false, 64, 1000),
        ("S_budget_1000001", 1_000_001, false, 64, 1000),
        ("S_list_999", 2, false, 64, 999),
        ("S_list_1100", 2, false, 64, 1100),
        ("S_capacity_0", 2, false, 0, 1000),
        ("S_capacity_1", 2, false, 1, 1000),
        ("S_capacity_2", 2, false, 2, 1000),
        ("S_20_before_21_and_22", 1_000_001, false, 0, 999),
        ("S_21_before_22", 2, false, 0, 999),
    ],
);

// No move can be made.
const STUCK: (&[u8], &[Trial]) = (
    b"\x00\x41\x01\xa0\xb0\xc0\xd0\x00\x00\x00\x00\
      \x06\x10\x32\x61\x83\xb2\x20\
      \x06\x11\x33\x62\x91\xb3\x30\
      \x06\x12\x41\x63\x92\xc1\x40\
      \x06\x13\x42\x71\x93\xc2\x50\
      \x06\x21\x43\x72\xa1\xc3\x60\
      \x06\x22\x51\x73\xa2\xd1\x70\
      \x06\x23\x52\x81\xa3\xd2\x80\
      \x06\x31\x53\x82\xb1\xd3\x90",
    &[
        ("T_budget_0", 0, false, 64, 1000),
        ("T_budget_0_partial", 0, true, 64, 1000),
        ("T_budget_1", 1, false, 64, 1000),
        ("T_budget_1_partial", 1, true, 64, 1000),
        ("T_budget_2", 2, false, 64, 1000),
        ("T_budget_1000000", 1_000_000, false, 1, 1000),
        ("T_budget_1000001", 1_000_001, false, 1, 1000),
    ],
);

// All cards are home.
const HOME: (&[u8], &[Trial]) = (
    b"\x00\x11\x01\xff\xff\xff\xff\x0d\x0d\x0d\x0d\x00\x00\x00\x00\x00\x00\x00\x00",
    &[
        ("won_budget_0", 0, false, 64, 1000),
        ("won_budget_1_partial", 1, true, 64, 1100),
        ("won_capacity_1", 1_000_000, false, 1, 1000),
        ("won_capacity_0", 0, false, 0, 1000),
        ("won_list_999", 0, false, 64, 999),
        ("won_budget_1000001", 1_000_001, false, 64, 1000),
    ],
);

// The pack in its order, dealt.
const DEALT: (&[u8], &[Trial]) = (
    b"\x00\x45\x01\xff\xff\xff\xff\x00\x00\x00\x00\
      \x07\x10\x30\x50\x70\x90\xb0\xd0\
      \x07\x11\x31\x51\x71\x91\xb1\xd1\
      \x07\x12\x32\x52\x72\x92\xb2\xd2\
      \x07\x13\x33\x53\x73\x93\xb3\xd3\
      \x06\x20\x40\x60\x80\xa0\xc0\
      \x06\x21\x41\x61\x81\xa1\xc1\
      \x06\x22\x42\x62\x82\xa2\xc2\
      \x06\x23\x43\x63\x83\xa3\xc3",
    &[
        ("dealt_budget_0", 0, false, 64, 1000),
        ("dealt_budget_0_partial", 0, true, 64, 1000),
        ("dealt_budget_1", 1, false, 64, 1000),
        ("dealt_budget_2", 2, false, 64, 1100),
        ("dealt_capacity_1", 1_000_000, true, 1, 1000),
        ("dealt_capacity_2", 1_000_000, true, 2, 1000),
        ("dealt_list_999", 2, false, 64, 999),
    ],
);

// Words of the nodes, keys that wait, entries of costs: room for so many nodes; for none, a word short of a node.
fn room_for(capacity: u8) -> (usize, usize, usize) {
    if capacity == 0 {
        return (2, 1, 2);
    }
    let nodes = usize::from(capacity);
    (3 * nodes, nodes, 2 * nodes)
}

// How many bytes behind the list are as they were, and its records.
fn list(rt: &impl Print, room: &[u8], moves: usize) -> io::Result<()> {
    let (records, rest) = saying::records(room, moves);
    print!(rt; " {}", saying::same(rest, &MARK))?;
    for record in records.chunks(5) {
        print!(rt; " {}", Hex(record))?;
    }
    println!(rt)
}

fn tried(rt: &impl Print, b: Board, trial: &Trial) -> io::Result<()> {
    let (label, budget, partial, capacity, lent) = *trial;
    let (words, waiting, entries) = room_for(capacity);
    let nodes = &mut [u32::MAX; 192][..words.min(192)];
    let heap = &mut [u64::MAX; 64][..waiting.min(64)];
    let keys = &mut [12345678901234567890u64; 128][..entries.min(128)];
    let costs = &mut [1u8; 128][..entries.min(128)];
    let room = &mut [MARK; 1100][..lent.min(1100)];
    let r = solver::solve(b, budget, partial, nodes, heap, keys, costs, room);
    let (number, pops, moves) = match r {
        Ok(judged) => (finish::number(Ok(judged.said)), judged.pops, judged.moves),
        Err(why) => (board::number(why), 0, 0),
    };
    print!(rt; "{label} {number} {pops} {moves}")?;
    print!(rt; " {} {}", saying::dirty(nodes), saying::dirty(heap))?;
    print!(rt; " {} {}", saying::dirty(keys), saying::dirty(costs))?;
    list(rt, room, moves)
}

fn all(rt: &impl Print, image: &[u8], trials: &[Trial]) -> io::Result<()> {
    let Ok(b) = intake::image::read(image) else {
        return Ok(());
    };
    for trial in trials {
        tried(rt, b, trial)?;
    }
    Ok(())
}

fn main(rt: HostRuntime) -> io::Result<()> {
    for (image, trials) in [KING, STUCK, HOME, DEALT] {
        all(&rt, image, trials)?;
    }
    Ok(())
}
