// The widely published shuffle: the deck of a hand's number.
#![tactic(auto)]

ghost use Rattle.std.specs.Prelude.{◌≡◌, ◌<◌, ◌^◌};
ghost use Rattle.base.specs.Words.{listed};
ghost use Rattle.card.specs.Pack.{card_at};
ghost use Rattle.shuffle.specs.Shuffle.{stepped, drawn, deck_of};

use std::array;

// The card at a place of the pack: ace of clubs, diamonds, hearts, spades, then the twos, and so on.
#[tactic(auto, unfolding(card::specs::Pack::card_at))]
fn card_at(place: usize) -> u8
    requires { place < 52 }
    ensures { result ≡ card_at place }
{
    let value = place / 4 + 1;
    let suit = place % 4;
    (value * 16 + suit) as u8
}

fn whole_pack() -> [u8; 52]
    ensures { result ≡ listed 52 card_at }
{
    array::from_fn(card_at)
}

// The state after a step.
#[tactic(auto, unfolding(crate::specs::Shuffle::stepped))]
fn step(state: usize) -> usize
    requires { state < 2 ^ 31 }
    ensures { result ≡ stepped state }
{
    (214013 * state + 2531011) % 2147483648
}

// What a state yields.
#[tactic(auto, unfolding(crate::specs::Shuffle::drawn))]
fn draw(state: usize) -> usize
    ensures { result ≡ drawn state }
{
    state / 65536
}

// The deck of a hand's number: 52 draws.
pub fn deck_of(number: usize) -> [u8; 52]
    requires { number < 2 ^ 31 }
    ensures { result ≡ deck_of number }
{
    let mut pack = whole_pack();
    let mut deck = [0u8; 52];
    let mut state = number;
    for (dealt, card) in deck.iter_mut().enumerate() {
        let left = 52 - dealt;
        let last = left - 1;
        state = step(state);
        let place = draw(state) % left;
        *card = pack[place];
        pack[place] = pack[last];
    }
    deck
}
