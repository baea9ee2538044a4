// A written move and its signs, and the form of a line. Knows no cards.
#![tactic(auto)]

pub mod form;
pub mod put;

// A move as it is written; `Counted` has `v` and a digit.
#[derive(Clone, Copy)]
pub enum Jot {
    Between {
        source: usize,
        destination: usize,
    },
    Counted {
        source: usize,
        destination: usize,
        count: usize,
    },
    ToCell {
        source: usize,
        cell: usize,
    },
    ToHome {
        source: usize,
    },
    FromCell {
        cell: usize,
        destination: usize,
    },
    CellHome {
        cell: usize,
    },
}

// What is due next: a source; the target of a column's or a cell's move; after two columns a `v`, a space or the end; a digit; after
// any other whole move a space or the end.
#[derive(Clone, Copy)]
pub enum Due {
    Source,
    OfColumn(usize),
    OfCell(usize),
    Pair(usize, usize),
    Digit(usize, usize),
    Whole(Jot),
}

// A sign leads on to what is due then, ends a move (the space), or is wrong. (Three ways on, each with a name: an `Option`
// or a `Result` would be no plainer.)
#[derive(Clone, Copy)]
pub enum Step {
    On(Due),
    Ends(Jot),
    Wrong,
}

// The place of a text's first wrong sign; its length where it is cut short.
#[derive(Clone, Copy)]
pub struct WrongSign {
    pub place: usize,
}
