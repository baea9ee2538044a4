// A move and its five-byte record (after freecell/board.rs, `FreeCellMove`, changed: NOTICE).
#![tactic(auto)]

ghost use Rattle.std.specs.Prelude.{◌≡◌, true, ◌∷◌, [], ◌+◌, ◌*◌, ◌<◌, ◌≤◌, length};
ghost use Rattle.base.specs.Answer.{given_or};
ghost use Rattle.card.specs.Card.{is_card};
ghost use Rattle.card.specs.Suit.{suit_number};
ghost use Rattle.moves.specs.Move.{from, to, card, sayable};
ghost use Rattle.moves.specs.declared.Place.TheVariants.{Home as home};
ghost use Rattle.moves.specs.Record.{source_room, target_allows, count_allows, move_said, move_asked, sayable_told, record_of};
ghost use Rattle.moves.specs.Written.{Adds};

use card::{Card, Suit};

// The most moves of a line, and the room for their records.
pub const MOST_MOVES: usize = 200;

pub const LIST_ROOM: usize = 5 * MOST_MOVES;

// Runs are a source and a count; the card is the deepest that is moved.
#[derive(Clone, Copy)]
pub enum Move {
    TableauToTableau {
        source: usize,
        destination: usize,
        count: usize,
        card: Card,
    },
    TableauToFoundation {
        source: usize,
        card: Card,
    },
    TableauToFreeCell {
        source: usize,
        cell_index: usize,
        card: Card,
    },
    FreeCellToTableau {
        cell_index: usize,
        destination: usize,
        card: Card,
    },
    FreeCellToFoundation {
        cell_index: usize,
        card: Card,
    },
    FoundationToTableau {
        suit: Suit,
        destination: usize,
        card: Card,
    },
}

// A column, a cell, the foundation of a suit.
#[derive(Clone, Copy)]
pub enum Place {
    Column(usize),
    Cell(usize),
    Home(usize),
}

// Where a move takes from.
pub fn source_of(m: Move) -> Place
    ensures { result ≡ from m }
{
    match m {
        Move::TableauToTableau { source, .. }
        | Move::TableauToFoundation { source, .. }
        | Move::TableauToFreeCell { source, .. } => Place::Column(source),
        Move::FreeCellToTableau { cell_index, .. }
        | Move::FreeCellToFoundation { cell_index, .. } => Place::Cell(cell_index),
        Move::FoundationToTableau { suit, .. } => home_of(suit),
    }
}

// The foundation of a suit.
fn home_of(suit: Suit) -> Place
    ensures { result ≡ home (suit_number suit) }
{
    Place::Home(usize::from(suit.number()))
}

// Where it goes to.
pub fn target_of(m: Move) -> Place
    ensures { result ≡ to m }
{
    match m {
        Move::TableauToTableau { destination, .. }
        | Move::FreeCellToTableau { destination, .. }
        | Move::FoundationToTableau { destination, .. } => Place::Column(destination),
        Move::TableauToFoundation { card, .. } | Move::FreeCellToFoundation { card, .. } => {
            home_of(card.suit)
        }
        Move::TableauToFreeCell { cell_index, .. } => Place::Cell(cell_index),
    }
}

// The deepest card that it moves.
pub fn deepest_of(m: Move) -> Card
    ensures { result ≡ card m }
{
    match m {
        Move::TableauToTableau { card, .. }
        | Move::TableauToFoundation { card, .. }
        | Move::TableauToFreeCell { card, .. }
        | Move::FreeCellToTableau { card, .. }
        | Move::FreeCellToFoundation { card, .. }
        | Move::FoundationToTableau { card, .. } => card,
    }
}

// How many places there are to move from.
#[tactic(auto, unfolding(crate::specs::Record::source_room))]
fn source_room(kind: u8) -> u8
    ensures { result ≡ source_room kind }
{
    match kind {
        1..=3 => 8,
        4..=6 => 4,
        _ => 0,
    }
}

#[tactic(auto, unfolding(crate::specs::Record::target_allows))]
fn target_allows(kind: u8, to: u8, code: u8) -> bool
    ensures { result ≡ target_allows kind to code }
{
    match kind {
        2 | 5 => to == code % 16,
        3 => to < 4,
        _ => to < 8,
    }
}

#[tactic(auto, unfolding(crate::specs::Record::count_allows))]
fn count_allows(kind: u8, count: u8) -> bool
    ensures { result ≡ count_allows kind count }
{
    match kind {
        1 => 1 <= count,
        _ => count == 1,
    }
}

// The move of five numbers that are known to be possible.
#[tactic(auto, unfolding(crate::specs::Record::move_said))]
fn move_said(kind: u8, from: u8, to: u8, count: u8, code: u8) -> Move
    requires { is_card code ≡ true }
    ensures { result ≡ move_said kind from to count code }
{
    let card = card::card_of(code);
    let source = usize::from(from);
    let destination = usize::from(to);
    match kind {
        1 => Move::TableauToTableau {
            source,
            destination,
            count: usize::from(count),
            card,
        },
        2 => Move::TableauToFoundation { source, card },
        3 => Move::TableauToFreeCell {
            source,
            cell_index: destination,
            card,
        },
        4 => Move::FreeCellToTableau {
            cell_index: source,
            destination,
            card,
        },
        5 => Move::FreeCellToFoundation {
            cell_index: source,
            card,
        },
        _ => Move::FoundationToTableau {
            suit: card::suit_at(from),
            destination,
            card,
        },
    }
}

// The move that a record says, or that it is impossible (30).
pub fn decode(bytes: &[u8]) -> Option<Move>
    ensures result_value { given_or 30 result ≡ move_asked bytes.now }
    ensures result_value_2 { sayable_told result ≡ true }
{
    if bytes.len() != 5 {
        return None;
    }
    let kind = bytes[0];
    let from = bytes[1];
    let to = bytes[2];
    let count = bytes[3];
    let code = bytes[4];
    if !card::is_card(code) {
        return None;
    }
    if source_room(kind) <= from {
        return None;
    }
    if !target_allows(kind, to, code) {
        return None;
    }
    if !count_allows(kind, count) {
        return None;
    }
    Some(move_said(kind, from, to, count, code))
}

// Five bytes, for places and a count that fit bytes.
fn five(kind: u8, from: usize, to: usize, count: usize, code: u8) -> [u8; 5]
    requires from_bound { from < 256 }
    requires to_bound { to < 256 }
    requires count_bound { count < 256 }
    ensures { result ≡ kind ∷ from ∷ to ∷ count ∷ code ∷ [] }
{
    [kind, from as u8, to as u8, count as u8, code]
}

// The record of a move that a record can say.
#[tactic(auto, unfolding(crate::specs::Move::sayable, crate::specs::Record::record_of))]
pub fn encode(m: Move) -> [u8; 5]
    requires { sayable m ≡ true }
    ensures { result ≡ record_of m }
{
    let code = card::code_of(deepest_of(m));
    match m {
        Move::TableauToTableau {
            source,
            destination,
            count,
            ..
        } => five(1, source, destination, count, code),
        Move::TableauToFoundation { source, card } => {
            five(2, source, usize::from(card.suit.number()), 1, code)
        }
        Move::TableauToFreeCell {
            source,
            cell_index,
            ..
        } => five(3, source, cell_index, 1, code),
        Move::FreeCellToTableau {
            cell_index,
            destination,
            ..
        } => five(4, cell_index, destination, 1, code),
        Move::FreeCellToFoundation { cell_index, card } => {
            five(5, cell_index, usize::from(card.suit.number()), 1, code)
        }
        Move::FoundationToTableau {
            suit,
            destination,
            ..
        } => five(6, usize::from(suit.number()), destination, 1, code),
    }
}

// One record more.
pub fn write(out: &mut [u8], n: usize, m: Move) -> usize
    requires m_value { sayable m ≡ true }
    requires n_in_bounds { (n + 1) * 5 ≤ length out.old }
    ensures { Adds out.old out.new n result (m ∷ []) }
{
    let at = n * 5;
    out[at..at + 5].copy_from_slice(&encode(m));
    n + 1
}
