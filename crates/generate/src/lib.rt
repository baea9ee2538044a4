// The kinds of move, and the room for a board's moves as records: specs/ says which moves of a kind are found, and in
// which order; the code that finds them is in `run_moves` and `generators`.
#![tactic(auto)]

ghost use Rattle.std.specs.Prelude.{◌≡◌, ◌<◌};
ghost use Rattle.generate.specs.Found.{source_count, target_count, move_from};

use card::Card;
use moves::Move;

// The most moves of a board, and the room for their records.
pub const MOST_RECORDS: usize = 836;

pub const RECORD_ROOM: usize = 5 * MOST_RECORDS;

// The six kinds of move.
#[derive(Clone, Copy)]
pub enum Way {
    ColumnToColumn,
    ColumnToHome,
    ColumnToCell,
    CellToColumn,
    CellToHome,
    HomeToColumn,
}

impl Way {
    // How many places a kind of move takes from.
    pub fn sources(self) -> usize
        ensures { result ≡ source_count self }
    {
        match self {
            Way::ColumnToColumn | Way::ColumnToHome | Way::ColumnToCell => 8,
            Way::CellToColumn | Way::CellToHome | Way::HomeToColumn => 4,
        }
    }

    // How many places it can go to.
    pub fn targets(self) -> usize
        ensures { result ≡ target_count self }
    {
        match self {
            Way::ColumnToColumn | Way::CellToColumn | Way::HomeToColumn => 8,
            Way::ColumnToCell => 4,
            Way::ColumnToHome | Way::CellToHome => 1,
        }
    }

    // The move of one card.
    pub fn move_from(self, i: usize, j: usize, card: Card) -> Move
        requires { i < source_count self }
        ensures { result ≡ move_from self i j 1 card }
    {
        match self {
            Way::ColumnToColumn => Move::TableauToTableau {
                source: i,
                destination: j,
                count: 1,
                card,
            },
            Way::ColumnToHome => Move::TableauToFoundation { source: i, card },
            Way::ColumnToCell => Move::TableauToFreeCell {
                source: i,
                cell_index: j,
                card,
            },
            Way::CellToColumn => Move::FreeCellToTableau {
                cell_index: i,
                destination: j,
                card,
            },
            Way::CellToHome => Move::FreeCellToFoundation {
                cell_index: i,
                card,
            },
            Way::HomeToColumn => Move::FoundationToTableau {
                suit: card::suit_at(i as u8),
                destination: j,
                card,
            },
        }
    }
}
