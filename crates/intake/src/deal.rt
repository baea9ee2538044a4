// Dealing a deck of 52 (after freecell/board.rs, `apply_fc_deal`, changed: NOTICE).
ghost use Rattle.std.specs.Prelude.{◌≡◌, ◌<◌};
ghost use Rattle.base.specs.Words.{listed};
ghost use Rattle.board.specs.Refusal.{answered};
ghost use Rattle.intake.specs.Deal.{deal_asked};
ghost use Rattle.intake.specs.Inside.{deck_code};
ghost use Rattle.board.specs.Record.{tableau_room};

use board::{Board, CODES, ROOM, Refusal, verdict};
use std::array;

// The code at one place of the flat array: deck place row * 8 + column, if there is one.
fn dealt_code(deck: &[u8], p: usize) -> u8
    requires { p < tableau_room }
    ensures { result ≡ deck_code deck.now p }
{
    let column = p / ROOM;
    let row = p % ROOM;
    let before = row * 8;
    let at = before + column;
    if at < deck.len() {
        return deck[at];
    }
    0
}

// The flat array of the eight columns.
fn lay_out(deck: &[u8]) -> [u8; CODES]
    ensures { result ≡ listed tableau_room (deck_code deck.now) }
{
    array::from_fn(|p| dealt_code(deck, p))
}

// 16, 13, 14, or the board: place i goes to column i mod 8, row i div 8.
pub fn deal(deck: &[u8]) -> Result<Board, Refusal>
    ensures { answered result ≡ deal_asked deck.now }
{
    if deck.len() != 52 {
        return Err(Refusal::NoDeck);
    }
    if !verdict::are_cards(deck) {
        return Err(Refusal::NoCard);
    }
    if !verdict::none_twice(deck) {
        return Err(Refusal::CardTwice);
    }
    let tableau = lay_out(deck);
    Ok(Board {
        cells: [255; 4],
        foundation: [0; 4],
        counts: [7, 7, 7, 7, 6, 6, 6, 6],
        tableau,
    })
}
