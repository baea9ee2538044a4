// The rules of laying cards: fit, run, the most cards moved at once (after freecell/board.rs, changed: NOTICE).
#![tactic(auto)]

ghost use Rattle.std.specs.Prelude.{◌≡◌, true, ◌<◌};
ghost use Rattle.board.specs.Refusal.{answered};
ghost use Rattle.base.specs.Words.{listed};
ghost use Rattle.card.specs.Card.{is_card};
ghost use Rattle.board.specs.Record.{column_at};
ghost use Rattle.board.specs.Inner.{GoodCells, GoodPiles, GoodColumns};
ghost use Rattle.rules.specs.Inner.{top_value};
ghost use Rattle.rules.specs.Fit.{fits_on, home_takes};
ghost use Rattle.runs.specs.Run.{run_length};
ghost use Rattle.rules.specs.Limit.{usable, most_moved};
ghost use Rattle.rules.specs.Asked.{fit_asked, run_asked, most_asked, takes_asked};

use board::verdict::inspect;
use board::{Board, CODES, Refusal};
use questions::column_at;

// A column takes a card.
pub fn fit_at<'a>(counts: &'a [u8; 8], tableau: &'a [u8; CODES], i: usize, code: u8) -> bool
    requires good_columns { GoodColumns counts.now tableau.now }
    requires i_bound { i < 8 }
    requires code_value { is_card code ≡ true }
    ensures { result ≡ fits_on (column_at counts.now tableau.now i) code }
{
    match column_at(counts, tableau, i).last() {
        Some(top) => runs::may_lie_on(*top, code),
        None => true,
    }
}

// The value of a column's top card, 0 if there is none.
pub fn top_value<'a>(counts: &'a [u8; 8], tableau: &'a [u8; CODES], i: usize) -> usize
    requires good_columns { GoodColumns counts.now tableau.now }
    requires i_bound { i < 8 }
    ensures { result ≡ top_value (column_at counts.now tableau.now i) }
{
    match column_at(counts, tableau, i).last() {
        Some(top) => usize::from(*top / 16),
        None => 0,
    }
}

// The longest run that ends at the top of a column.
pub fn run_at<'a>(counts: &'a [u8; 8], tableau: &'a [u8; CODES], i: usize) -> usize
    requires good_columns { GoodColumns counts.now tableau.now }
    requires i_bound { i < 8 }
    ensures { result ≡ run_length (column_at counts.now tableau.now i) }
{
    let cards = column_at(counts, tableau, i);
    for run in 1..cards.len() {
        let lower = cards.len() - run;
        if !runs::may_lie_on(cards[lower - 1], cards[lower]) {
            return run;
        }
    }
    cards.len()
}

// The empty columns that help a move into a column.
fn usable_at<'a>(counts: &'a [u8; 8], tableau: &'a [u8; CODES], to: usize) -> usize
    requires good_columns { GoodColumns counts.now tableau.now }
    requires to_bound { to < 8 }
    ensures { result ≡ usable (listed 8 (column_at counts.now tableau.now)) to }
{
    let empties = questions::empty_columns_at(counts, tableau);
    if counts[to] == 0 {
        return empties - 1;
    }
    empties
}

// The most cards that may be moved at once into a column.
pub fn most_at<'a>(
    cells: &'a [u8; 4],
    counts: &'a [u8; 8],
    tableau: &'a [u8; CODES],
    to: usize,
) -> usize
    requires good_cells { GoodCells cells.now }
    requires good_columns { GoodColumns counts.now tableau.now }
    requires to_bound { to < 8 }
    ensures { result ≡ most_moved cells.now (listed 8 (column_at counts.now tableau.now)) to }
{
    let one_more = questions::empty_cells_at(cells) + 1;
    let times = 1usize << usable_at(counts, tableau, to);
    one_more * times
}

// The foundation takes a card.
pub fn home_takes(foundation: &[u8; 4], code: u8) -> bool
    requires good_piles { GoodPiles foundation.now }
    requires code_value { is_card code ≡ true }
    ensures { result ≡ home_takes foundation.now code }
{
    let next = foundation[usize::from(code % 16)] + 1;
    code / 16 == next
}

pub fn can_add_to_tableau(b: Board, code: u8, i: usize) -> Result<bool, Refusal>
    ensures { answered result ≡ fit_asked b code i }
{
    inspect(&b.cells, &b.foundation, &b.counts, &b.tableau)?;
    if !card::is_card(code) {
        return Err(Refusal::OutOfRange);
    }
    if 7 < i {
        return Err(Refusal::OutOfRange);
    }
    Ok(fit_at(&b.counts, &b.tableau, i, code))
}

pub fn max_tableau_run_length(b: Board, i: usize) -> Result<usize, Refusal>
    ensures { answered result ≡ run_asked b i }
{
    inspect(&b.cells, &b.foundation, &b.counts, &b.tableau)?;
    if 7 < i {
        return Err(Refusal::OutOfRange);
    }
    Ok(run_at(&b.counts, &b.tableau, i))
}

pub fn max_movable_cards(b: Board, to: usize) -> Result<usize, Refusal>
    ensures { answered result ≡ most_asked b to }
{
    inspect(&b.cells, &b.foundation, &b.counts, &b.tableau)?;
    if 7 < to {
        return Err(Refusal::OutOfRange);
    }
    Ok(most_at(&b.cells, &b.counts, &b.tableau, to))
}

pub fn can_add_to_foundation(b: Board, code: u8) -> Result<bool, Refusal>
    ensures { answered result ≡ takes_asked b code }
{
    inspect(&b.cells, &b.foundation, &b.counts, &b.tableau)?;
    if !card::is_card(code) {
        return Err(Refusal::OutOfRange);
    }
    Ok(home_takes(&b.foundation, code))
}
