// The judgement that a record, an image and a deck share: codes, repeats, missing cards.
ghost use Rattle.std.specs.Prelude.{◌≡◌, true, length, ◌*◌};
ghost use Rattle.base.specs.Words.{every, all, concat, listed};
ghost use Rattle.card.specs.Card.{is_card};
ghost use Rattle.board.specs.Table.{cards_on};
ghost use Rattle.board.specs.Verdict.{is_cell, none_twice, verdict_on};
ghost use Rattle.board.specs.Record.{room, at_most, is_zero, spare_at, examined, laid};
ghost use Rattle.board.specs.Refusal.{answered};
ghost use Rattle.board.specs.Inner.{Marks, GoodCells, GoodPiles, Parts, part_at, Sized};

use crate::{CODES, ROOM, Refusal, mask};

// The most cards of a column, as a byte.
const MOST: u8 = ROOM as u8;

// Where each column's room begins in a record.
const STARTS: [usize; 8] = [
    0,
    ROOM,
    2 * ROOM,
    3 * ROOM,
    4 * ROOM,
    5 * ROOM,
    6 * ROOM,
    7 * ROOM,
];

// Every byte of a list is a card's code.
pub fn are_cards(codes: &[u8]) -> bool
    ensures { result ≡ all is_card codes.now }
{
    codes.iter().all(|code| card::is_card(*code))
}

// None is above `most`.
pub fn within(most: u8, counts: &[u8]) -> bool
    ensures { result ≡ all (at_most most) counts.now }
{
    counts.iter().all(|count| *count <= most)
}

// A cell's code: FF for empty, else a card's.
fn is_cell(code: u8) -> bool
    ensures { result ≡ is_cell code }
{
    code == 255 || card::is_card(code)
}

fn are_cells(cells: &[u8; 4]) -> bool
    requires { length cells.now ≡ 4 }
    ensures { result ≡ all is_cell cells.now }
{
    cells.iter().all(|code| is_cell(*code))
}

// No card comes twice in a list of cards.
pub fn none_twice(s: &[u8]) -> bool
    requires { all is_card s.now ≡ true }
    ensures { result ≡ none_twice s.now }
{
    mask::mark_all(0, s).is_some()
}

// Every code of the eight columns is a card's.
fn columns_are_cards<'a>(starts: &'a [usize; 8], counts: &'a [u8; 8], codes: &'a [u8]) -> bool
    requires { Parts starts.now counts.now codes.now }
    ensures { result ≡ all is_card (concat (listed 8 (part_at starts.now counts.now codes.now))) }
{
    for i in 0..8 {
        let start = starts[i];
        let end = start + usize::from(counts[i]);
        if !are_cards(&codes[start..end]) {
            return false;
        }
    }
    true
}

// The unused room of each column of a record is zero.
fn spare_is_zero<'a>(counts: &'a [u8; 8], tableau: &'a [u8]) -> bool
    requires counts_len { length counts.now ≡ 8 }
    requires tableau_len { length tableau.now ≡ 8 * room }
    requires counts_value { all (at_most room) counts.now ≡ true }
    ensures { result ≡ every 8 (λ i. all is_zero (spare_at counts.now tableau.now i)) }
{
    for i in 0..8 {
        let first = i * ROOM;
        let start = first + usize::from(counts[i]);
        let end = first + ROOM;
        if !within(0, &tableau[start..end]) {
            return false;
        }
    }
    true
}

// Every card on a table, piles first.
fn mark_table<'a>(
    cells: &'a [u8; 4],
    foundation: &'a [u8; 4],
    starts: &'a [usize; 8],
    counts: &'a [u8; 8],
    codes: &'a [u8],
) -> Option<u64>
    requires good_cells { GoodCells cells.now }
    requires good_piles { GoodPiles foundation.now }
    requires parts { Parts starts.now counts.now codes.now }
    requires codes_value { all is_card (concat (listed 8 (part_at starts.now counts.now codes.now))) ≡ true }
    ensures { Marks 0 (cards_on (record { cells = cells.entry.now; foundation = foundation.now; columns = listed 8 (part_at starts.now counts.now codes.now) })) result }
{
    let piled = mask::mark_piles(0, foundation)?;
    let held = mask::mark_cells(piled, cells)?;
    mask::mark_columns(held, starts, counts, codes)
}

// 13, 14, 15, or well formed, for the table of these cells, piles and columns.
pub fn verdict_on<'a>(
    cells: &'a [u8; 4],
    foundation: &'a [u8; 4],
    starts: &'a [usize; 8],
    counts: &'a [u8; 8],
    codes: &'a [u8],
) -> Result<(), Refusal>
    requires cells_len { length cells.now ≡ 4 }
    requires good_piles { GoodPiles foundation.now }
    requires parts { Parts starts.now counts.now codes.now }
    ensures { answered result ≡ verdict_on (record { cells = cells.entry.now; foundation = foundation.now; columns = listed 8 (part_at starts.now counts.now codes.now) }) }
{
    if !are_cells(cells) {
        return Err(Refusal::NoCard);
    }
    if !columns_are_cards(starts, counts, codes) {
        return Err(Refusal::NoCard);
    }
    let Some(seen) = mark_table(cells, foundation, starts, counts, codes) else {
        return Err(Refusal::CardTwice);
    };
    if seen.count_ones() == 52 {
        return Ok(());
    }
    Err(Refusal::CardMissing)
}

// 12, 13, 14, 15, or well formed, for a record lent by its parts.
pub fn inspect<'a>(
    cells: &'a [u8; 4],
    foundation: &'a [u8; 4],
    counts: &'a [u8; 8],
    tableau: &'a [u8; CODES],
) -> Result<(), Refusal>
    requires { Sized (laid cells.now foundation.now counts.now tableau.now) }
    ensures { answered result ≡ examined (laid cells.now foundation.now counts.now tableau.now) }
{
    if !within(MOST, counts) {
        return Err(Refusal::WrongShape);
    }
    if !within(13, foundation) {
        return Err(Refusal::WrongShape);
    }
    if !spare_is_zero(counts, tableau) {
        return Err(Refusal::WrongShape);
    }
    verdict_on(cells, foundation, &STARTS, counts, tableau)
}
