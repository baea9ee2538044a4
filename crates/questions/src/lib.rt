// The plain questions about a board (after freecell/board.rs and `is_win` of freecell/solver.rs, changed: NOTICE). Each entry
// point examines its record first; beside it stands the inner form for a record known to be well formed, which borrows the
// arrays that it reads and copies nothing.
#![tactic(auto)]

ghost use Rattle.std.specs.Prelude.{◌≡◌, true, cond, ◌<◌, eqb, length, get_or, EachIndex, ◌≤◌};
ghost use Rattle.board.specs.Refusal.{answered};
ghost use Rattle.base.specs.Words.{sum, listed};
ghost use Rattle.card.specs.Card.{is_card};
ghost use Rattle.board.specs.Record.{column_at, room};
ghost use Rattle.questions.specs.Questions.{top_of, cell_of, home_count, empty_cells, empty_columns, won_on};
ghost use Rattle.questions.specs.Questions.{top_asked, cell_asked, foundation_asked, home_asked, empty_cells_asked, empty_columns_asked, won_asked};
ghost use Rattle.board.specs.Inner.{GoodCells, GoodPiles, GoodColumns};

use board::verdict::inspect;
use board::{Board, CODES, ROOM, Refusal};
use card::Card;

// The cards of a column, the deepest first.
pub fn column_at<'a>(counts: &[u8; 8], tableau: &'a [u8], i: usize) -> &'a [u8]
    requires good_columns { GoodColumns counts.now tableau.now }
    requires i_bound { i < 8 }
    ensures value { result.now ≡ column_at counts.now tableau.now i }
    ensures short { length result.now ≤ room }
    ensures cards { EachIndex result.now (λ k. is_card (get_or result.now k 0) ≡ true) }
{
    let first = i * ROOM;
    let end = first + usize::from(counts[i]);
    &tableau[first..end]
}

// The top card of a column.
pub fn top_at<'a>(counts: &'a [u8; 8], tableau: &'a [u8; CODES], i: usize) -> Option<Card>
    requires good_columns { GoodColumns counts.now tableau.now }
    requires i_bound { i < 8 }
    ensures { result ≡ top_of (column_at counts.now tableau.now i) }
{
    let count = usize::from(counts[i]);
    if count == 0 {
        return None;
    }
    let first = i * ROOM;
    let last = first + (count - 1);
    Some(card::card_of(tableau[last]))
}

// What a cell shows.
pub fn cell_at(cells: &[u8; 4], i: usize) -> Option<Card>
    requires good_cells { GoodCells cells.now }
    requires i_bound { i < 4 }
    ensures { result ≡ cell_of (get_or cells.now i 0) }
{
    let code = cells[i];
    if code == 255 {
        return None;
    }
    Some(card::card_of(code))
}

// How many cards of a suit are home.
pub fn foundation_at(foundation: &[u8; 4], s: usize) -> usize
    requires good_piles { GoodPiles foundation.now }
    requires s_bound { s < 4 }
    ensures { result ≡ get_or foundation.now s 0 }
{
    usize::from(foundation[s])
}

// How many cards are home.
pub fn total_at(foundation: &[u8; 4]) -> usize
    requires { GoodPiles foundation.now }
    ensures { result ≡ home_count foundation.now }
{
    foundation.iter().map(|n| usize::from(*n)).sum()
}

// How many bytes of a list are x (with `filter` and `count` a search takes a tenth more instructions).
fn count_of(s: &[u8], x: u8) -> usize
    ensures { result ≡ sum (length s.now) (λ k. cond (eqb (get_or s.now k 0) x) 1 0) }
{
    s.iter().map(|y| usize::from(*y == x)).sum()
}

// How many cells are empty.
pub fn empty_cells_at(cells: &[u8; 4]) -> usize
    requires { GoodCells cells.now }
    ensures { result ≡ empty_cells cells.now }
{
    count_of(cells, 255)
}

// How many columns are empty.
pub fn empty_columns_at<'a>(counts: &'a [u8; 8], tableau: &'a [u8; CODES]) -> usize
    requires { GoodColumns counts.now tableau.now }
    ensures { result ≡ empty_columns (listed 8 (column_at counts.now tableau.now)) }
{
    count_of(counts, 0)
}

// Every suit is home up to its king.
pub fn won_at(foundation: &[u8; 4]) -> bool
    requires { GoodPiles foundation.now }
    ensures { result ≡ won_on foundation.now }
{
    foundation.iter().all(|n| *n == 13)
}

pub fn top_of_tableau(b: Board, i: usize) -> Result<Option<Card>, Refusal>
    ensures { answered result ≡ top_asked b i }
{
    inspect(&b.cells, &b.foundation, &b.counts, &b.tableau)?;
    if 7 < i {
        return Err(Refusal::OutOfRange);
    }
    Ok(top_at(&b.counts, &b.tableau, i))
}

pub fn free_cell(b: Board, i: usize) -> Result<Option<Card>, Refusal>
    ensures { answered result ≡ cell_asked b i }
{
    inspect(&b.cells, &b.foundation, &b.counts, &b.tableau)?;
    if 3 < i {
        return Err(Refusal::OutOfRange);
    }
    Ok(cell_at(&b.cells, i))
}

pub fn foundation_count(b: Board, s: usize) -> Result<usize, Refusal>
    ensures { answered result ≡ foundation_asked b s }
{
    inspect(&b.cells, &b.foundation, &b.counts, &b.tableau)?;
    if 3 < s {
        return Err(Refusal::OutOfRange);
    }
    Ok(foundation_at(&b.foundation, s))
}

pub fn total_foundation_count(b: Board) -> Result<usize, Refusal>
    ensures { answered result ≡ home_asked b }
{
    inspect(&b.cells, &b.foundation, &b.counts, &b.tableau)?;
    Ok(total_at(&b.foundation))
}

pub fn empty_free_cells(b: Board) -> Result<usize, Refusal>
    ensures { answered result ≡ empty_cells_asked b }
{
    inspect(&b.cells, &b.foundation, &b.counts, &b.tableau)?;
    Ok(empty_cells_at(&b.cells))
}

pub fn empty_tableau_columns(b: Board) -> Result<usize, Refusal>
    ensures { answered result ≡ empty_columns_asked b }
{
    inspect(&b.cells, &b.foundation, &b.counts, &b.tableau)?;
    Ok(empty_columns_at(&b.counts, &b.tableau))
}

pub fn is_win(b: Board) -> Result<bool, Refusal>
    ensures { answered result ≡ won_asked b }
{
    inspect(&b.cells, &b.foundation, &b.counts, &b.tableau)?;
    Ok(won_at(&b.foundation))
}
