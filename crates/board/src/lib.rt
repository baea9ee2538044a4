// The board record and what a card player sees on it (after freecell/board.rs, `FreeCellBoard`, changed: NOTICE).
#![tactic(auto)]

ghost use Rattle.std.specs.Prelude.{◌≡◌};
ghost use Rattle.board.specs.Record.{examined};
ghost use Rattle.board.specs.Refusal.{number_of, answered};

mod mask;
pub mod verdict;

// The room that a record has for each column, and for all eight.
pub const ROOM: usize = 52;

pub const CODES: usize = 8 * ROOM;

// Four cells (a card's code, or 255), four foundation counts, eight column counts, and eight columns of room for 52
// codes each, the deepest first; unused room is zero.
#[derive(Clone, Copy)]
pub struct Board {
    pub cells: [u8; 4],
    pub foundation: [u8; 4],
    pub counts: [u8; 8],
    pub tableau: [u8; CODES],
}

// Why something is refused; specs/Refusal.antt has SCOPE.md's number for each.
#[derive(Clone, Copy, PartialEq, Eq)]
pub enum Refusal {
    WrongLength = 10,
    WrongVersion = 11,
    WrongShape = 12,
    NoCard = 13,
    CardTwice = 14,
    CardMissing = 15,
    NoDeck = 16,
    OverBudget = 20,
    LittleRoom = 21,
    NoNode = 22,
    OutOfRange = 30,
    WrongList = 31,
    // the requests' numbers: boards (17, 18), moves (33 to 40), numbers and texts (41 to 43), sheets and figures (44 to 47)
    Unreachable = 17,
    NoGame = 18,
    SourceEmpty = 33,
    OtherCard = 34,
    TooMany = 35,
    OverLimit = 36,
    NoRun = 37,
    NoFit = 38,
    CellFull = 39,
    NotNext = 40,
    NoNumber = 41,
    WrongText = 42,
    NotWritable = 43,
    CommonDeal = 44,
    OtherSettings = 45,
    WrongFigures = 46,
    WrongSheet = 47,
}

// The first of 12, 13, 14, 15 that holds of a record, or that it is well formed.
pub fn examine(b: Board) -> Result<(), Refusal>
    ensures { answered result ≡ examined b }
{
    verdict::inspect(&b.cells, &b.foundation, &b.counts, &b.tableau)
}

// SCOPE.md's number of a refusal.
pub fn number(why: Refusal) -> u8
    ensures { result ≡ number_of why }
{
    why as u8
}
