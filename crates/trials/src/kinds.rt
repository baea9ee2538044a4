// The kinds of trial: each writes SCOPE.md's number after the label, or `board` and what the plain questions say of it.
use board::{Board, Refusal};
use intake::{deal, image};
use saying::Spaced;
use std::{array, io};

fn verdict(rt: &impl Print, said: Result<Board, Refusal>) -> io::Result<()> {
    match said {
        Ok(b) => println!(rt; " board {}", Spaced(&saying::totals(b))),
        Err(why) => println!(rt; " {}", saying::refusal(why)),
    }
}

// A record from its 432 bytes: cells, foundation counts, column counts, and the columns' room; those missing are zero.
fn record_in(bytes: &[u8]) -> Board {
    let byte = |i: usize| bytes.get(i).copied().unwrap_or(0);
    Board {
        cells: array::from_fn(&byte),
        foundation: array::from_fn(|i| byte(4 + i)),
        counts: array::from_fn(|i| byte(8 + i)),
        tableau: array::from_fn(|i| byte(16 + i)),
    }
}

// The board to ask about: all zero after a refusal.
fn board_of(said: Result<Board, Refusal>) -> Board {
    said.unwrap_or_else(|_| record_in(&[]))
}

// A line of its own for one row of places.
fn row(rt: &impl Print, label: &[u8], name: &str, places: &[usize]) -> io::Result<()> {
    rt.write_all(label)?;
    println!(rt; "_{name} {}", Spaced(places))
}

// Every plain answer about the board of an image.
fn known(rt: &impl Print, label: &[u8], bytes: &[u8]) -> io::Result<()> {
    let said = image::read(bytes);
    verdict(rt, said)?;
    let b = board_of(said);
    row(rt, label, "tops", &saying::tops(b))?;
    row(rt, label, "cells", &saying::cells(b))?;
    row(rt, label, "home", &saying::home(b))
}

// Column, cell and suit of one number, and the answers that ask for none. A refused question shows its number where
// the answer would stand.
fn answers(rt: &impl Print, b: Board, place: usize) -> io::Result<()> {
    let top = saying::top(questions::top_of_tableau(b, place));
    let cell = saying::top(questions::free_cell(b, place));
    let home = saying::count(questions::foundation_count(b, place));
    println!(rt; " {top} {cell} {home} {}", Spaced(&saying::totals(b)))
}

// The label, and then an image, a deck, the tops of a deck, a record, questions about a record, or else a known image.
pub(crate) fn tried(
    rt: &impl Print,
    kind: u8,
    label: &[u8],
    place: usize,
    bytes: &[u8],
) -> io::Result<()> {
    rt.write_all(label)?;
    match kind {
        b'i' => verdict(rt, image::read(bytes)),
        b'd' => verdict(rt, deal::deal(bytes)),
        b't' => println!(rt; " {}", Spaced(&saying::tops(board_of(deal::deal(bytes))))),
        b'r' => {
            let b = record_in(bytes);
            verdict(rt, board::examine(b).map(|()| b))
        }
        b'a' => answers(rt, record_in(bytes), place),
        _ => known(rt, label, bytes),
    }
}
