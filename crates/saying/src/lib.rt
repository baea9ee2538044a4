// What the test programs write: an answer as a number, bytes as digits, how much of lent memory is as it was.
#![tactic(auto)]

ghost use Rattle.std.specs.Prelude.{◌≡◌, ◌≤◌, count_by, length};

use board::{Board, ROOM, Refusal};
use card::Card;
use std::{array, fmt};

// Bytes, two digits each.
#[derive(Clone, Copy)]
pub struct Hex<'a>(pub &'a [u8]);

impl fmt::Display for Hex<'_> {
    fn fmt<W: fmt::Write>(&self, f: &mut fmt::Formatter<W>) -> fmt::Result {
        for byte in self.0 {
            write!(f, "{byte:02x}")?;
        }
        Ok(())
    }
}

// Things with a space between two of them.
#[derive(Clone, Copy)]
pub struct Spaced<'a, T>(pub &'a [T]);

impl<T: fmt::Display> fmt::Display for Spaced<'_, T> {
    fn fmt<W: fmt::Write>(&self, f: &mut fmt::Formatter<W>) -> fmt::Result {
        for (i, thing) in self.0.iter().enumerate() {
            if 0 < i {
                write!(f, " ")?;
            }
            write!(f, "{thing}")?;
        }
        Ok(())
    }
}

// How many of the items are this one.
pub fn same<T: PartialEq>(items: &[T], one: &T) -> usize
    ensures value { result ≡ count_by (λ x. T.eq x one.now) items.now }
    ensures bound { result ≤ length items.now }
{
    items.iter().filter(|x| *x == one).count()
}

// How many are not zero.
pub fn dirty<T: Default + PartialEq + Drop>(room: &[T]) -> usize {
    room.len() - same(room, &T::default())
}

// What stands for an answer that is refused: SCOPE.md's number.
pub fn refusal(why: Refusal) -> usize {
    usize::from(board::number(why))
}

// 0 if it is fine.
pub fn examined(said: Result<(), Refusal>) -> usize {
    said.map_or_else(refusal, |()| 0)
}

pub fn count(answer: Result<usize, Refusal>) -> usize {
    answer.unwrap_or_else(refusal)
}

pub fn yes(answer: Result<bool, Refusal>) -> usize {
    answer.map_or_else(refusal, usize::from)
}

pub fn code(card: Card) -> u8 {
    card.encode().unwrap_or(0)
}

// A card by its code, 255 for no card.
pub fn top(answer: Result<Option<Card>, Refusal>) -> usize {
    match answer {
        Ok(top) => top.map_or(255, |card| usize::from(code(card))),
        Err(why) => refusal(why),
    }
}

// The first n records of lent room, and what lies behind them.
pub fn records(room: &[u8], n: usize) -> (&[u8], &[u8]) {
    room.split_at(n.saturating_mul(5).min(room.len()))
}

// The codes of each column, the deepest first, and its room above them.
pub fn columns(b: &Board) -> [(&[u8], &[u8]); 8] {
    array::from_fn(|i| {
        let room = &b.tableau[i * ROOM..(i + 1) * ROOM];
        room.split_at(usize::from(b.counts[i]).min(ROOM))
    })
}

// What the columns show, what the cells show, how many cards of each suit are home.
pub fn tops(b: Board) -> [usize; 8] {
    array::from_fn(|i| top(questions::top_of_tableau(b, i)))
}

pub fn cells(b: Board) -> [usize; 4] {
    array::from_fn(|i| top(questions::free_cell(b, i)))
}

pub fn home(b: Board) -> [usize; 4] {
    array::from_fn(|i| count(questions::foundation_count(b, i)))
}

// The answers that ask for no place: all that are home, empty cells, empty columns, won.
pub fn totals(b: Board) -> [usize; 4] {
    [
        count(questions::total_foundation_count(b)),
        count(questions::empty_free_cells(b)),
        count(questions::empty_tableau_columns(b)),
        yes(questions::is_win(b)),
    ]
}

// The codes of the pack: ace of clubs, diamonds, hearts, spades, then the twos, and so on.
pub fn pack() -> [u8; 52] {
    array::from_fn(|k| (16 * (k / 4 + 1) + k % 4) as u8)
}
