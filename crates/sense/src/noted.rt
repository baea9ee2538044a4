// How a move is written on a board that is known to be well formed: `v` and a digit for fewer cards than the most.
ghost use Rattle.std.specs.Prelude.{◌≡◌, true, ◌<◌};
ghost use Rattle.card.specs.declared.Card.{Card};
ghost use Rattle.board.specs.Record.{shown, laid};
ghost use Rattle.board.specs.Inner.{Sound};
ghost use Rattle.moves.specs.Move.{sayable};
ghost use Rattle.moves.specs.declared.Move.TheVariants.{TableauToTableau};
ghost use Rattle.sense.specs.Meant.{jot_of};

use crate::meant::most_into;
use board::CODES;
use moves::Move;
use notation::Jot;

// How some cards from column to column are written: `v` and a digit only for fewer than the most into an empty column.
fn run_jot<'a>(
    cells: &'a [u8; 4],
    foundation: &'a [u8; 4],
    counts: &'a [u8; 8],
    tableau: &'a [u8; CODES],
    source: usize,
    destination: usize,
    count: usize,
) -> Jot
    requires sound { Sound (laid cells.now foundation.now counts.now tableau.now) }
    requires source_bound { source < 8 }
    requires destination_bound { destination < 8 }
    ensures { (c : Card) → result ≡ jot_of (shown (laid cells.now foundation.now counts.now tableau.now)) (TableauToTableau source destination count c) }
{
    if counts[destination] == 0
        && count < most_into(cells, foundation, counts, tableau, source, destination)
    {
        Jot::Counted {
            source,
            destination,
            count,
        }
    } else {
        Jot::Between {
            source,
            destination,
        }
    }
}

// How a move is written on a board (one of a card from its foundation is refused before: 43).
#[tactic(auto, unfolding(crate::specs::Meant::jot_of))]
pub fn jot_at<'a>(
    m: Move,
    cells: &'a [u8; 4],
    foundation: &'a [u8; 4],
    counts: &'a [u8; 8],
    tableau: &'a [u8; CODES],
) -> Jot
    requires sound { Sound (laid cells.now foundation.now counts.now tableau.now) }
    requires m_value { sayable m ≡ true }
    ensures { result ≡ jot_of (shown (laid cells.now foundation.now counts.now tableau.now)) m }
{
    match m {
        Move::TableauToTableau {
            source,
            destination: to,
            count,
            ..
        } => run_jot(cells, foundation, counts, tableau, source, to, count),
        Move::TableauToFoundation { source, .. } => Jot::ToHome { source },
        Move::TableauToFreeCell {
            source,
            cell_index: cell,
            ..
        } => Jot::ToCell { source, cell },
        Move::FreeCellToTableau {
            cell_index: cell,
            destination,
            ..
        } => Jot::FromCell { cell, destination },
        Move::FreeCellToFoundation {
            cell_index: cell,
            ..
        } => Jot::CellHome { cell },
        Move::FoundationToTableau { destination, .. } => Jot::ToHome {
            source: destination,
        },
    }
}
