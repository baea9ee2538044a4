// What is said of one board: its limits, what its columns and foundations take, its moves, and moves made on it.
use crate::beside::Beside;
use board::{Board, Refusal};
use generate::Way;
use saying::{Hex, Spaced};
use std::{array, io};

// For each column the longest run on it, then the most cards that can be moved to it.
fn limits(rt: &impl Print, b: Board) -> io::Result<()> {
    let runs: [usize; 8] = array::from_fn(|i| saying::count(rules::max_tableau_run_length(b, i)));
    let most: [usize; 8] = array::from_fn(|i| saying::count(rules::max_movable_cards(b, i)));
    println!(rt; "{} {} ", Spaced(&runs), Spaced(&most))
}

// The columns that take a card, column i as 2^i, and 256 if its foundation does.
fn takers(b: Board, code: u8) -> usize {
    let mut bits = 0;
    if saying::yes(rules::can_add_to_foundation(b, code)) == 1 {
        bits = 256;
    }
    for i in 0..8 {
        if saying::yes(rules::can_add_to_tableau(b, code, i)) == 1 {
            bits |= 1 << i;
        }
    }
    bits
}

// What a byte of lent room holds before a call.
fn mark(i: usize) -> u8 {
    (i % 4200 * 7 % 251) as u8
}

fn fill(out: &mut [u8]) {
    for i in 0..out.len() {
        out[i] = mark(i);
    }
}

// How many bytes from a place on are as they were filled.
fn kept(out: &[u8], from: usize) -> usize {
    let mut n = 0;
    for i in from..out.len() {
        if out[i] == mark(i) {
            n += 1;
        }
    }
    n
}

// The kind, how many moves, their records, how many bytes of the room stayed.
fn moves<F: Fn(Board, &mut [u8]) -> Result<usize, Refusal>>(
    rt: &impl Print,
    b: Board,
    kind: u8,
    find: F,
) -> io::Result<()>
    requires { F.IsAlwaysCallable find }
{
    let mut out = [0; 4200];
    fill(&mut out);
    let n = saying::count(find(b, &mut out));
    print!(rt; "{kind} {n} ")?;
    let (records, _) = saying::records(&out, n);
    for record in records.chunks(5) {
        print!(rt; "{} ", Hex(record))?;
    }
    println!(rt; "{}", kept(&out, records.len()))
}

// A refused generator: its number, and how many bytes of the room stayed.
fn refused(rt: &impl Print, b: Board, out: &mut [u8]) -> io::Result<()> {
    fill(out);
    let n = saying::count(generators::find(b, Way::ColumnToCell, out));
    print!(rt; "{n} {} ", kept(out, 0))
}

// The number of the refusal or 0, and the board afterwards.
fn one_move(rt: &impl Print, given: &Board, record: &[u8]) -> io::Result<()> {
    let moved = replay::apply_record(*given, record);
    let said = saying::examined(moved.map(|_| ()));
    let board = &moved.unwrap_or(*given);
    print!(rt; "{said} {}", Beside { board, given })
}

// The same of a list, with how many of its moves were played.
fn list(rt: &impl Print, given: &Board, bytes: &[u8]) -> io::Result<()> {
    let replayed = replay::replay(*given, bytes);
    let said = saying::examined(replayed.said);
    let n = replayed.moves;
    let board = &replayed.board;
    println!(rt; "{said} {n} {}", Beside { board, given })
}

// A board with a code in a cell that is no card's, and too little room: nothing changes.
fn damaged(rt: &impl Print, b: Board) -> io::Result<()> {
    let mut bad = b;
    bad.cells[0] = 1;
    refused(rt, bad, &mut [0; 4200])?;
    refused(rt, b, &mut [0; 4179])?;
    one_move(rt, &bad, b"\x03\x00\x00\x01\x10")?;
    print!(rt; " ")?;
    list(rt, &bad, b"")
}

fn each_move(rt: &impl Print, b: &Board, records: &[u8]) -> io::Result<()> {
    for record in records.chunks_exact(5) {
        one_move(rt, b, record)?;
        println!(rt)?;
    }
    Ok(())
}

fn of_board(rt: &impl Print, b: Board, records: &[u8], bytes: &[u8]) -> io::Result<()> {
    limits(rt, b)?;
    println!(rt; "{} ", Spaced(&saying::pack().map(|code| takers(b, code))))?;
    moves(rt, b, 2, generators::find_tableau_to_foundation)?;
    moves(rt, b, 5, generators::find_freecell_to_foundation)?;
    moves(rt, b, 6, generators::find_foundation_to_tableau)?;
    moves(rt, b, 1, generators::find_tableau_to_tableau)?;
    moves(rt, b, 4, generators::find_freecell_to_tableau)?;
    moves(rt, b, 3, generators::find_tableau_to_freecell)?;
    damaged(rt, b)?;
    each_move(rt, &b, records)?;
    list(rt, &b, bytes)
}

pub(crate) fn of_image(
    rt: &impl Print,
    image: &[u8],
    records: &[u8],
    bytes: &[u8],
) -> io::Result<()> {
    match intake::image::read(image) {
        Ok(b) => of_board(rt, b, records, bytes),
        Err(why) => println!(rt; "{} ", saying::refusal(why)),
    }
}
