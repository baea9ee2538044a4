// Safe play: which card may go home without a second thought, the first such move, and the chain of them (after
// freecell/solver.rs, `is_safe_foundation_move` to `auto_play_safe_chain`, changed: NOTICE).
#![tactic(auto)]

ghost use Rattle.std.specs.Prelude.{◌≡◌, true, ◌&&◌, ◌/◌, ◌<◌, ◌≤◌};
ghost use Rattle.board.specs.Refusal.{answered};
ghost use Rattle.base.specs.Words.{listed};
ghost use Rattle.card.specs.Suit.{color_of};
ghost use Rattle.card.specs.Card.{is_card, is_value, code_of};
ghost use Rattle.board.specs.Record.{shown, column_at, laid};
ghost use Rattle.board.specs.Inner.{GoodCells, GoodPiles, GoodColumns, Sound};
ghost use Rattle.questions.specs.Questions.{top_of};
ghost use Rattle.runs.specs.Follows.{is_red};
ghost use Rattle.rules.specs.Fit.{home_takes};
ghost use Rattle.safe.specs.Safe.{needed, safe, first_safe};
ghost use Rattle.safe.specs.Inner.{cards_at, home_move};
ghost use Rattle.safe.specs.Asked.{safe_asked, first_asked, chain_asked, chained, Runs};

use board::verdict::inspect;
use board::{Board, CODES, Refusal};
use card::Card;
use moves::Move;

// The board after the safe chain, and how many moves it had.
#[derive(Clone, Copy)]
pub struct Chained {
    pub moves: usize,
    pub board: Board,
}

// How many cards of a suit have to be home before a card.
fn needed_of(code: u8, s: u8) -> u8
    requires code_value { is_card code ≡ true }
    requires bound { 3 ≤ code / 16 }
    ensures { result ≡ needed code s }
{
    let rank = code / 16;
    let other = card::suit_at(s);
    let own = card::card_of(code).suit;
    if is_red(other) != is_red(own) {
        return rank - 1;
    }
    if s == code % 16 {
        return 0;
    }
    rank - 2
}

// A suit is red.
fn is_red(suit: card::Suit) -> bool
    ensures { result ≡ is_red (color_of suit) }
{
    matches!(suit.color(), card::Color::Red)
}

// A card may go home without a second thought.
pub fn is_safe_at(foundation: &[u8; 4], code: u8) -> bool
    requires good_piles { GoodPiles foundation.now }
    requires code_value { is_card code ≡ true }
    ensures { result ≡ safe foundation.now code }
{
    if code / 16 <= 2 {
        return true;
    }
    for s in 0u8..4 {
        let suit = usize::from(s);
        if foundation[suit] < needed_of(code, s) {
            return false;
        }
    }
    true
}

// The last card at a place: columns 0 to 7, then cells.
fn top_at_place<'a>(
    cells: &'a [u8; 4],
    counts: &'a [u8; 8],
    tableau: &'a [u8; CODES],
    place: usize,
) -> Option<Card>
    requires good_cells { GoodCells cells.now }
    requires good_columns { GoodColumns counts.now tableau.now }
    requires place_bound { place < 12 }
    ensures { result ≡ top_of (cards_at cells.now (listed 8 (column_at counts.now tableau.now)) place) }
{
    if place < 8 {
        return questions::top_at(counts, tableau, place);
    }
    questions::cell_at(cells, place - 8)
}

// The move home from a place.
fn home_move(place: usize, card: Card) -> Move
    ensures { result ≡ home_move place card }
{
    if place < 8 {
        return Move::TableauToFoundation {
            source: place,
            card,
        };
    }
    Move::FreeCellToFoundation {
        cell_index: place - 8,
        card,
    }
}

// A card is the next of its foundation, and safe.
fn goes_home(foundation: &[u8; 4], card: Card) -> bool
    requires good_piles { GoodPiles foundation.now }
    requires value_value { is_value card.value ≡ true }
    ensures { result ≡ (home_takes foundation.now (code_of card) && safe foundation.now (code_of card)) }
{
    let code = card::code_of(card);
    if rules::home_takes(foundation, code) {
        return is_safe_at(foundation, code);
    }
    false
}

// The first safe move on a well formed board: columns and then cells, a place with no card being passed over.
pub fn first_safe_at<'a>(
    cells: &'a [u8; 4],
    foundation: &'a [u8; 4],
    counts: &'a [u8; 8],
    tableau: &'a [u8; CODES],
) -> Option<Move>
    requires { Sound (laid cells.now foundation.now counts.now tableau.now) }
    ensures { result ≡ first_safe (shown (laid cells.now foundation.now counts.now tableau.now)) }
{
    for place in 0..12 {
        let Some(card) = top_at_place(cells, counts, tableau, place) else {
            continue;
        };
        if goes_home(foundation, card) {
            return Some(home_move(place, card));
        }
    }
    None
}

// The safe chain, played on a well formed board that lies in four arrays: how many moves it had.
pub fn chain_to(
    cells: &mut [u8; 4],
    foundation: &mut [u8; 4],
    counts: &mut [u8; 8],
    tableau: &mut [u8; CODES],
) -> usize
    requires { Sound (laid cells.old foundation.old counts.old tableau.old) }
    ensures { Runs (laid cells.old foundation.old counts.old tableau.old) (laid cells.new foundation.new counts.new tableau.new) result }
{
    for moves in 0..52 {
        let Some(m) = first_safe_at(cells, foundation, counts, tableau) else {
            return moves;
        };
        play::apply_to(m, cells, foundation, counts, tableau);
    }
    52
}

// The safe chain on a well formed board.
pub fn chain_at(b: Board) -> Chained
    requires { Sound b }
    ensures value { result ≡ chained b }
    ensures sound { Sound result.board }
{
    let mut cells = b.cells;
    let mut foundation = b.foundation;
    let mut counts = b.counts;
    let mut tableau = b.tableau;
    let moves = chain_to(&mut cells, &mut foundation, &mut counts, &mut tableau);
    let board = Board {
        cells,
        foundation,
        counts,
        tableau,
    };
    Chained { moves, board }
}

// 12 to 15, 30 for a code that is no card's, or whether a card is safe.
pub fn is_safe(b: Board, code: u8) -> Result<bool, Refusal>
    ensures { answered result ≡ safe_asked b code }
{
    inspect(&b.cells, &b.foundation, &b.counts, &b.tableau)?;
    if !card::is_card(code) {
        return Err(Refusal::OutOfRange);
    }
    Ok(is_safe_at(&b.foundation, code))
}

// 12 to 15, or the first safe move, if there is one.
pub fn first_safe_move(b: Board) -> Result<Option<Move>, Refusal>
    ensures { answered result ≡ first_asked b }
{
    inspect(&b.cells, &b.foundation, &b.counts, &b.tableau)?;
    Ok(first_safe_at(&b.cells, &b.foundation, &b.counts, &b.tableau))
}

// 12 to 15, or the board after the safe chain.
pub fn safe_chain(b: Board) -> Result<Chained, Refusal>
    ensures { answered result ≡ chain_asked b }
{
    inspect(&b.cells, &b.foundation, &b.counts, &b.tableau)?;
    Ok(chain_at(b))
}
