// What a written move means on a board that is known to be well formed: how many cards go, and which card is the deepest.
ghost use Rattle.std.specs.Prelude.{Some, ◌≡◌, true, ◌<◌, ◌≤◌, get_or};
ghost use Rattle.board.specs.Refusal.{answered};
ghost use Rattle.card.specs.Card.{is_card};
ghost use Rattle.board.specs.Record.{shown, laid, column_at};
ghost use Rattle.board.specs.Inner.{GoodColumns, Sound};
ghost use Rattle.moves.specs.Play.{there, last_of};
ghost use Rattle.generate.specs.Found.{offered};
ghost use Rattle.generate.specs.declared.Way.TheVariants.{ColumnToColumn};
ghost use Rattle.notation.specs.Jot.{WellMade};
ghost use Rattle.sense.specs.Meant.{most_into, fitting, origin, leaves, sense, meant};
ghost use Rattle.sense.specs.Inner.{Fitting};
ghost use Rattle.notation.specs.declared.Jot.TheVariants.{Between, Counted};
ghost use Rattle.questions.specs.Questions.{top_of};

use board::{CODES, ROOM, Refusal};
use card::Card;
use moves::Move;
use notation::Jot;

// The deepest of the last n cards of a column.
fn deepest<'a>(counts: &'a [u8; 8], tableau: &'a [u8; CODES], i: usize, n: usize) -> u8
    requires good_columns { GoodColumns counts.now tableau.now }
    requires i_bound { i < 8 }
    requires le_n { 1 ≤ n }
    requires n_bound { n ≤ get_or counts.now i 0 }
    ensures value { result ≡ get_or (last_of n (column_at counts.now tableau.now i)) 0 0 }
    ensures result_value { is_card result ≡ true }
{
    let first = i * ROOM;
    let lie = usize::from(counts[i]);
    tableau[first + (lie - n)]
}

// The most that go from column i into column j if it is empty: the lesser of limit and run.
pub fn most_into<'a>(
    cells: &'a [u8; 4],
    foundation: &'a [u8; 4],
    counts: &'a [u8; 8],
    tableau: &'a [u8; CODES],
    i: usize,
    j: usize,
) -> usize
    requires sound { Sound (laid cells.now foundation.now counts.now tableau.now) }
    requires i_bound { i < 8 }
    requires j_bound { j < 8 }
    ensures { result ≡ most_into (shown (laid cells.now foundation.now counts.now tableau.now)) i j }
{
    let limit = rules::most_at(cells, counts, tableau, j);
    let run = rules::run_at(counts, tableau, i);
    limit.min(run)
}

// The most cards within the run of column i that fit column j, if any do.
fn fitting_at<'a>(
    cells: &'a [u8; 4],
    foundation: &'a [u8; 4],
    counts: &'a [u8; 8],
    tableau: &'a [u8; CODES],
    i: usize,
    j: usize,
) -> Option<usize>
    requires sound { Sound (laid cells.now foundation.now counts.now tableau.now) }
    requires i_bound { i < 8 }
    requires j_bound { j < 8 }
    ensures { Fitting (fitting (shown (laid cells.now foundation.now counts.now tableau.now)) i j) result }
{
    let run = rules::run_at(counts, tableau, i);
    for n in (1..=run).rev() {
        let code = deepest(counts, tableau, i, n);
        if rules::fit_at(counts, tableau, j, code) {
            return Some(n);
        }
    }
    None
}

// The move of n cards between two columns.
fn run_move<'a>(
    cells: &'a [u8; 4],
    foundation: &'a [u8; 4],
    counts: &'a [u8; 8],
    tableau: &'a [u8; CODES],
    i: usize,
    j: usize,
    n: usize,
) -> Move
    requires sound { Sound (laid cells.now foundation.now counts.now tableau.now) }
    requires i_bound { i < 8 }
    requires le_n { 1 ≤ n }
    requires n_bound { n ≤ get_or counts.now i 0 }
    ensures { result ≡ offered (shown (laid cells.now foundation.now counts.now tableau.now)) ColumnToColumn i j n }
{
    let code = deepest(counts, tableau, i, n);
    let card = card::card_of(code);
    Move::TableauToTableau {
        source: i,
        destination: j,
        count: n,
        card,
    }
}

// Two columns alone: the most into an empty one, else the count that fits, or 38.
fn between_at<'a>(
    cells: &'a [u8; 4],
    foundation: &'a [u8; 4],
    counts: &'a [u8; 8],
    tableau: &'a [u8; CODES],
    i: usize,
    j: usize,
) -> Result<Move, Refusal>
    requires sound { Sound (laid cells.now foundation.now counts.now tableau.now) }
    requires i_bound { i < 8 }
    requires j_bound { j < 8 }
    requires bound { 1 ≤ get_or counts.now i 0 }
    ensures { answered result ≡ sense (shown (laid cells.now foundation.now counts.now tableau.now)) (Between i j) }
{
    let count = if counts[j] == 0 {
        most_into(cells, foundation, counts, tableau, i, j)
    } else {
        fitting_at(cells, foundation, counts, tableau, i, j).ok_or(Refusal::NoFit)?
    };
    Ok(run_move(cells, foundation, counts, tableau, i, j, count))
}

// Two columns and a count: into an empty one, from 1 to below the most, else 30.
fn counted_at<'a>(
    cells: &'a [u8; 4],
    foundation: &'a [u8; 4],
    counts: &'a [u8; 8],
    tableau: &'a [u8; CODES],
    i: usize,
    j: usize,
    n: usize,
) -> Result<Move, Refusal>
    requires sound { Sound (laid cells.now foundation.now counts.now tableau.now) }
    requires i_bound { i < 8 }
    requires j_bound { j < 8 }
    ensures { answered result ≡ sense (shown (laid cells.now foundation.now counts.now tableau.now)) (Counted i j n) }
{
    let most = most_into(cells, foundation, counts, tableau, i, j);
    if counts[j] == 0 && (1..most).contains(&n) {
        Ok(run_move(cells, foundation, counts, tableau, i, j, n))
    } else {
        Err(Refusal::OutOfRange)
    }
}

// A move that does not go from a column to itself.
fn goes_away(jot: Jot) -> bool
    ensures { result ≡ leaves jot }
{
    match jot {
        Jot::Between {
            source,
            destination,
        }
        | Jot::Counted {
            source,
            destination,
            ..
        } => source != destination,
        Jot::ToCell { .. } | Jot::ToHome { .. } | Jot::FromCell { .. } | Jot::CellHome { .. } =>
            true,
    }
}

// The last card where a move takes from.
fn top_there<'a>(
    cells: &'a [u8; 4],
    foundation: &'a [u8; 4],
    counts: &'a [u8; 8],
    tableau: &'a [u8; CODES],
    jot: Jot,
) -> Option<Card>
    requires sound { Sound (laid cells.now foundation.now counts.now tableau.now) }
    requires well_made { WellMade jot }
    ensures { result ≡ top_of (there (shown (laid cells.now foundation.now counts.now tableau.now)) (origin jot)) }
{
    match jot {
        Jot::Between { source, .. }
        | Jot::Counted { source, .. }
        | Jot::ToCell { source, .. }
        | Jot::ToHome { source } => questions::top_at(counts, tableau, source),
        Jot::FromCell { cell, .. } | Jot::CellHome { cell } => questions::cell_at(cells, cell),
    }
}

// The move itself; the card is the last where it takes from.
fn sense_at<'a>(
    cells: &'a [u8; 4],
    foundation: &'a [u8; 4],
    counts: &'a [u8; 8],
    tableau: &'a [u8; CODES],
    jot: Jot,
    card: Card,
) -> Result<Move, Refusal>
    requires sound { Sound (laid cells.now foundation.now counts.now tableau.now) }
    requires well_made { WellMade jot }
    requires jot_value { top_of (there (shown (laid cells.now foundation.now counts.now tableau.now)) (origin jot)) ≡ Some card }
    ensures { answered result ≡ sense (shown (laid cells.now foundation.now counts.now tableau.now)) jot }
{
    match jot {
        Jot::Between {
            source,
            destination,
        } => between_at(cells, foundation, counts, tableau, source, destination),
        Jot::Counted {
            source,
            destination: to,
            count,
        } => counted_at(cells, foundation, counts, tableau, source, to, count),
        Jot::ToCell { source, cell } => Ok(Move::TableauToFreeCell {
            source,
            cell_index: cell,
            card,
        }),
        Jot::ToHome { source } => Ok(Move::TableauToFoundation { source, card }),
        Jot::FromCell { cell, destination } => Ok(Move::FreeCellToTableau {
            cell_index: cell,
            destination,
            card,
        }),
        Jot::CellHome { cell: cell_index } => {
            Ok(Move::FreeCellToFoundation { cell_index, card })
        }
    }
}

// The move that is meant: 30 for a column to itself, 33 for a source with no card, then its own 30 or 38.
pub fn meant_at<'a>(
    cells: &'a [u8; 4],
    foundation: &'a [u8; 4],
    counts: &'a [u8; 8],
    tableau: &'a [u8; CODES],
    jot: Jot,
) -> Result<Move, Refusal>
    requires sound { Sound (laid cells.now foundation.now counts.now tableau.now) }
    requires well_made { WellMade jot }
    ensures { answered result ≡ meant (shown (laid cells.now foundation.now counts.now tableau.now)) jot }
{
    if !goes_away(jot) {
        return Err(Refusal::OutOfRange);
    }
    let Some(card) = top_there(cells, foundation, counts, tableau, jot) else {
        return Err(Refusal::SourceEmpty);
    };
    sense_at(cells, foundation, counts, tableau, jot, card)
}
