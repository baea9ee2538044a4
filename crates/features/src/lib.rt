// The features of a well formed board, from its arrays (after freecell/solver.rs, `compute_features`, changed: NOTICE).
#![tactic(auto)]

ghost use Rattle.std.specs.Prelude.{◌≡◌, cond, ◌∷◌, [], ◌/◌, ◌≤◌, ◌<◌, leb, length, get_or};
ghost use Rattle.base.specs.Words.{sum, listed};
ghost use Rattle.board.specs.Table.{held};
ghost use Rattle.board.specs.Record.{shown, column_at, laid, room};
ghost use Rattle.board.specs.Inner.{GoodCells, GoodPiles, GoodColumns, Sound};
ghost use Rattle.features.specs.Features.{last_goes_home, blocked_in, blocked_on, imbalance_of, cells_used, longest_run, immediate_on, features_of};

use board::CODES;

#[derive(Clone, Copy)]
pub struct Features {
    pub home: usize,
    pub immediate: usize,
    pub blocked: usize,
    pub imbalance: usize,
    pub used: usize,
    pub empty: usize,
    pub longest: usize,
}

// The top of a column can go home.
fn column_home<'a>(
    foundation: &'a [u8; 4],
    counts: &'a [u8; 8],
    tableau: &'a [u8; CODES],
    i: usize,
) -> bool
    requires good_piles { GoodPiles foundation.now }
    requires good_columns { GoodColumns counts.now tableau.now }
    requires i_bound { i < 8 }
    ensures { result ≡ last_goes_home foundation.now (column_at counts.now tableau.now i) }
{
    match questions::column_at(counts, tableau, i).last() {
        Some(code) => rules::home_takes(foundation, *code),
        None => false,
    }
}

// The card in a cell can go home.
fn cell_home<'a>(foundation: &'a [u8; 4], cells: &'a [u8; 4], i: usize) -> bool
    requires good_piles { GoodPiles foundation.now }
    requires good_cells { GoodCells cells.now }
    requires i_bound { i < 4 }
    ensures { result ≡ last_goes_home foundation.now (held (get_or cells.now i 0 ∷ [])) }
{
    let code = cells[i];
    code != 255 && rules::home_takes(foundation, code)
}

// How many columns have a card that can go home.
fn columns_home<'a>(foundation: &'a [u8; 4], counts: &'a [u8; 8], tableau: &'a [u8; CODES]) -> usize
    requires good_piles { GoodPiles foundation.now }
    requires good_columns { GoodColumns counts.now tableau.now }
    ensures { result ≡ sum 8 (λ i. cond (last_goes_home foundation.now (column_at counts.now tableau.now i)) 1 0) }
{
    (0..8)
        .map(|i| usize::from(column_home(foundation, counts, tableau, i)))
        .sum()
}

// How many cells have a card that can go home.
fn cells_home<'a>(foundation: &'a [u8; 4], cells: &'a [u8; 4]) -> usize
    requires good_piles { GoodPiles foundation.now }
    requires good_cells { GoodCells cells.now }
    ensures { result ≡ sum 4 (λ i. cond (last_goes_home foundation.now (held (get_or cells.now i 0 ∷ []))) 1 0) }
{
    (0..4)
        .map(|i| usize::from(cell_home(foundation, cells, i)))
        .sum()
}

pub fn immediate_foundation_count<'a>(
    cells: &'a [u8; 4],
    foundation: &'a [u8; 4],
    counts: &'a [u8; 8],
    tableau: &'a [u8; CODES],
) -> usize
    requires { Sound (laid cells.now foundation.now counts.now tableau.now) }
    ensures { result ≡ immediate_on (shown (laid cells.now foundation.now counts.now tableau.now)) }
{
    let from_columns = columns_home(foundation, counts, tableau);
    let from_cells = cells_home(foundation, cells);
    from_columns + from_cells
}

// What one card adds that has so many on it.
fn blocked_by(code: u8, above: usize) -> usize
    ensures { result ≡ cond (leb (code / 16) 3) above 0 }
{
    if code / 16 <= 3 {
        return above;
    }
    0
}

// What the low cards of a column add.
fn blocked_in(column: &[u8]) -> usize
    requires { length column.now ≤ room }
    ensures { result ≡ blocked_in column.now }
{
    let mut n = 0;
    for (k, code) in column.iter().enumerate() {
        n += blocked_by(*code, column.len() - (k + 1));
    }
    n
}

pub fn blocked_low_penalty<'a>(counts: &'a [u8; 8], tableau: &'a [u8]) -> usize
    requires { GoodColumns counts.now tableau.now }
    ensures { result ≡ blocked_on (listed 8 (column_at counts.now tableau.now)) }
{
    (0..8)
        .map(|i| blocked_in(questions::column_at(counts, tableau, i)))
        .sum()
}

pub fn foundation_imbalance(foundation: &[u8; 4]) -> usize
    requires { GoodPiles foundation.now }
    ensures { result ≡ imbalance_of foundation.now }
{
    let [clubs, diamonds, hearts, spades] = *foundation;
    let high = clubs.max(diamonds).max(hearts).max(spades);
    let low = clubs.min(diamonds).min(hearts).min(spades);
    usize::from(high - low)
}

pub fn free_cells_used(cells: &[u8; 4]) -> usize
    requires { GoodCells cells.now }
    ensures { result ≡ cells_used cells.now }
{
    4 - questions::empty_cells_at(cells)
}

pub fn longest_run_length<'a>(counts: &'a [u8; 8], tableau: &'a [u8; CODES]) -> usize
    requires { GoodColumns counts.now tableau.now }
    ensures { result ≡ longest_run (listed 8 (column_at counts.now tableau.now)) }
{
    (0..8)
        .map(|i| rules::run_at(counts, tableau, i))
        .fold(0, |longest, run| longest.max(run))
}

pub fn compute_features<'a>(
    cells: &'a [u8; 4],
    foundation: &'a [u8; 4],
    counts: &'a [u8; 8],
    tableau: &'a [u8; CODES],
) -> Features
    requires { Sound (laid cells.now foundation.now counts.now tableau.now) }
    ensures { result ≡ features_of (shown (laid cells.now foundation.now counts.now tableau.now)) }
{
    Features {
        home: questions::total_at(foundation),
        immediate: immediate_foundation_count(cells, foundation, counts, tableau),
        blocked: blocked_low_penalty(counts, tableau),
        imbalance: foundation_imbalance(foundation),
        used: free_cells_used(cells),
        empty: questions::empty_columns_at(counts, tableau),
        longest: longest_run_length(counts, tableau),
    }
}
