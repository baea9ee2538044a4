// The six generators of moves, in one walk: by source, destination, length (after freecell/board.rs, `find_..`,
// changed: NOTICE).
#![tactic(auto)]

ghost use Rattle.std.specs.Prelude.{◌≡◌, true, ◌+◌, ◌*◌, ◌<◌, ◌≤◌, length};
ghost use Rattle.card.specs.Card.{is_value, code_of};
ghost use Rattle.board.specs.Record.{shown, laid};
ghost use Rattle.board.specs.Inner.{Sound};
ghost use Rattle.questions.specs.Questions.{top_of};
ghost use Rattle.moves.specs.Move.{to};
ghost use Rattle.moves.specs.Play.{there, takes};
ghost use Rattle.generate.specs.Found.{source_count, target_count, source, move_from, found_between, found_from, found};
ghost use Rattle.moves.specs.Written.{Adds};
ghost use Rattle.generate.specs.Asked.{Finds};
ghost use Rattle.generate.specs.Inner.{Offers};
ghost use Rattle.generate.specs.declared.Way.TheVariants.{ColumnToColumn, ColumnToHome, ColumnToCell, CellToColumn, CellToHome, HomeToColumn};

use board::verdict::inspect;
use board::{Board, CODES, Refusal};
use card::Card;
use generate::{RECORD_ROOM, Way};
use moves::Move;
use run_moves::runs_from;

// The last card at the place that a kind of move takes from.
fn card_at<'a>(
    way: Way,
    cells: &'a [u8; 4],
    foundation: &'a [u8; 4],
    counts: &'a [u8; 8],
    tableau: &'a [u8; CODES],
    i: usize,
) -> Option<Card>
    requires sound { Sound (laid cells.now foundation.now counts.now tableau.now) }
    requires i_bound { i < source_count way }
    ensures { result ≡ top_of (there (shown (laid cells.now foundation.now counts.now tableau.now)) (source way i)) }
{
    match way {
        Way::ColumnToColumn | Way::ColumnToHome | Way::ColumnToCell => {
            questions::top_at(counts, tableau, i)
        }
        Way::CellToColumn | Way::CellToHome => questions::cell_at(cells, i),
        Way::HomeToColumn => play::rule::home_at(foundation, i),
    }
}

// The place that a kind of move goes to takes the card.
fn takes_at<'a>(
    way: Way,
    cells: &'a [u8; 4],
    foundation: &'a [u8; 4],
    counts: &'a [u8; 8],
    tableau: &'a [u8; CODES],
    i: usize,
    j: usize,
    card: Card,
) -> bool
    requires sound { Sound (laid cells.now foundation.now counts.now tableau.now) }
    requires j_bound { j < target_count way }
    requires value_value { is_value card.value ≡ true }
    ensures { result ≡ takes (shown (laid cells.now foundation.now counts.now tableau.now)) (to (move_from way i j 1 card)) (code_of card) }
{
    let code = card::code_of(card);
    match way {
        Way::ColumnToColumn | Way::CellToColumn | Way::HomeToColumn => {
            rules::fit_at(counts, tableau, j, code)
        }
        Way::ColumnToHome | Way::CellToHome => rules::home_takes(foundation, code),
        Way::ColumnToCell => cells[j] == 255,
    }
}

// The move of one card between two places, if it is allowed; the card is the last at its place.
fn offer<'a>(
    way: Way,
    cells: &'a [u8; 4],
    foundation: &'a [u8; 4],
    counts: &'a [u8; 8],
    tableau: &'a [u8; CODES],
    i: usize,
    j: usize,
    card: Card,
    out: &mut [u8],
    n: usize,
) -> usize
    requires offers { Offers (laid cells.now foundation.now counts.now tableau.now) way i j card }
    requires j_in_bounds { (n + length (found_between (shown (laid cells.now foundation.now counts.now tableau.now)) way i j)) * 5 ≤ length out.old }
    ensures { Adds out.old out.new n result (found_between (shown (laid cells.now foundation.now counts.now tableau.now)) way i j) }
{
    if takes_at(way, cells, foundation, counts, tableau, i, j, card) {
        return moves::write(out, n, way.move_from(i, j, card));
    }
    n
}

// The moves of one card from a place.
fn from_place<'a>(
    way: Way,
    cells: &'a [u8; 4],
    foundation: &'a [u8; 4],
    counts: &'a [u8; 8],
    tableau: &'a [u8; CODES],
    i: usize,
    out: &mut [u8],
    n: usize,
) -> usize
    requires sound { Sound (laid cells.now foundation.now counts.now tableau.now) }
    requires fact { way ≡ ColumnToColumn → ⊥ }
    requires i_bound { i < source_count way }
    requires i_in_bounds { (n + length (found_from (shown (laid cells.now foundation.now counts.now tableau.now)) way i)) * 5 ≤ length out.old }
    ensures { Adds out.old out.new n result (found_from (shown (laid cells.now foundation.now counts.now tableau.now)) way i) }
{
    let Some(card) = card_at(way, cells, foundation, counts, tableau, i) else {
        return n;
    };
    let mut made = n;
    for j in 0..way.targets() {
        made = offer(
            way, cells, foundation, counts, tableau, i, j, card, out, made,
        );
    }
    made
}

// The moves of a kind from a place.
fn find_from<'a>(
    way: Way,
    cells: &'a [u8; 4],
    foundation: &'a [u8; 4],
    counts: &'a [u8; 8],
    tableau: &'a [u8; CODES],
    i: usize,
    out: &mut [u8],
    n: usize,
) -> usize
    requires sound { Sound (laid cells.now foundation.now counts.now tableau.now) }
    requires i_bound { i < source_count way }
    requires i_in_bounds { (n + length (found_from (shown (laid cells.now foundation.now counts.now tableau.now)) way i)) * 5 ≤ length out.old }
    ensures { Adds out.old out.new n result (found_from (shown (laid cells.now foundation.now counts.now tableau.now)) way i) }
{
    match way {
        Way::ColumnToColumn => runs_from(cells, foundation, counts, tableau, i, out, n),
        _ => from_place(way, cells, foundation, counts, tableau, i, out, n),
    }
}

// All moves of a kind on a well formed board, after n records.
pub fn find_at<'a>(
    way: Way,
    cells: &'a [u8; 4],
    foundation: &'a [u8; 4],
    counts: &'a [u8; 8],
    tableau: &'a [u8; CODES],
    out: &mut [u8],
    n: usize,
) -> usize
    requires sound { Sound (laid cells.now foundation.now counts.now tableau.now) }
    requires way_in_bounds { (n + length (found (shown (laid cells.now foundation.now counts.now tableau.now)) way)) * 5 ≤ length out.old }
    ensures { Adds out.old out.new n result (found (shown (laid cells.now foundation.now counts.now tableau.now)) way) }
{
    let mut made = n;
    for i in 0..way.sources() {
        made = find_from(way, cells, foundation, counts, tableau, i, out, made);
    }
    made
}

// 12 to 15, 21, or all moves of a kind.
pub fn find(b: Board, way: Way, out: &mut [u8]) -> Result<usize, Refusal>
    ensures { Finds b (found (shown b) way) out.old out.new result }
{
    inspect(&b.cells, &b.foundation, &b.counts, &b.tableau)?;
    if out.len() < RECORD_ROOM {
        return Err(Refusal::LittleRoom);
    }
    let made = find_at(way, &b.cells, &b.foundation, &b.counts, &b.tableau, out, 0);
    Ok(made)
}

// `find` for each kind, by the Rust's names.
pub fn find_tableau_to_foundation(b: Board, out: &mut [u8]) -> Result<usize, Refusal>
    ensures { Finds b (found (shown b) ColumnToHome) out.old out.new result }
{
    find(b, Way::ColumnToHome, out)
}

pub fn find_freecell_to_foundation(b: Board, out: &mut [u8]) -> Result<usize, Refusal>
    ensures { Finds b (found (shown b) CellToHome) out.old out.new result }
{
    find(b, Way::CellToHome, out)
}

pub fn find_tableau_to_freecell(b: Board, out: &mut [u8]) -> Result<usize, Refusal>
    ensures { Finds b (found (shown b) ColumnToCell) out.old out.new result }
{
    find(b, Way::ColumnToCell, out)
}

pub fn find_freecell_to_tableau(b: Board, out: &mut [u8]) -> Result<usize, Refusal>
    ensures { Finds b (found (shown b) CellToColumn) out.old out.new result }
{
    find(b, Way::CellToColumn, out)
}

pub fn find_tableau_to_tableau(b: Board, out: &mut [u8]) -> Result<usize, Refusal>
    ensures { Finds b (found (shown b) ColumnToColumn) out.old out.new result }
{
    find(b, Way::ColumnToColumn, out)
}

pub fn find_foundation_to_tableau(b: Board, out: &mut [u8]) -> Result<usize, Refusal>
    ensures { Finds b (found (shown b) HomeToColumn) out.old out.new result }
{
    find(b, Way::HomeToColumn, out)
}
