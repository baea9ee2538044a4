// Cards: the four suits, their colours, and a card's code, value * 16 + suit (after common/card.rs, changed: NOTICE).
#![tactic(auto)]

ghost use Rattle.std.specs.Prelude.{◌≡◌, true};
ghost use Rattle.base.specs.Answer.{given_or};
ghost use Rattle.card.specs.Suit.{suit_number, suit_at, color_of, suit_asked};
ghost use Rattle.card.specs.Card.{is_card, is_value, card_of, code_of, code_asked, card_asked};
ghost use Rattle.card.specs.Pack.{place_of};

#[derive(Clone, Copy, PartialEq, Eq)]
pub enum Suit {
    Club,
    Diamond,
    Heart,
    Spade,
}

#[derive(Clone, Copy, PartialEq, Eq)]
pub enum Color {
    Black,
    Red,
}

#[derive(Clone, Copy, PartialEq, Eq)]
pub struct Card {
    pub suit: Suit,
    pub value: u8,
}

impl Suit {
    pub fn color(self) -> Color
        ensures { result ≡ color_of self }
    {
        match self {
            Suit::Club | Suit::Spade => Color::Black,
            Suit::Diamond | Suit::Heart => Color::Red,
        }
    }

    pub fn number(self) -> u8
        ensures { result ≡ suit_number self }
    {
        self as u8
    }

    pub fn from_u8(v: u8) -> Option<Suit>
        ensures { given_or 30 result ≡ suit_asked v }
    {
        if v < 4 { Some(suit_at(v)) } else { None }
    }
}

// The suit with a number that is known to be one (spades for any above 3).
pub fn suit_at(v: u8) -> Suit
    ensures { result ≡ suit_at v }
{
    match v {
        0 => Suit::Club,
        1 => Suit::Diamond,
        2 => Suit::Heart,
        _ => Suit::Spade,
    }
}

// Ace to king.
fn is_value(value: u8) -> bool
    ensures { result ≡ is_value value }
{
    1 <= value && value <= 13
}

// Whether a byte is some card's code.
pub fn is_card(code: u8) -> bool
    ensures { result ≡ is_card code }
{
    let suit = code % 16;
    is_value(code / 16) && suit < 4
}

// The card with a code that is known to be one.
pub fn card_of(code: u8) -> Card
    requires { is_card code ≡ true }
    ensures { result ≡ card_of code }
{
    let suit = suit_at(code % 16);
    Card {
        suit,
        value: code / 16,
    }
}

// The code of a card whose value is known to be one.
pub fn code_of(card: Card) -> u8
    requires { is_value card.value ≡ true }
    ensures { result ≡ code_of card }
{
    let value = card.value;
    let suit = card.suit;
    let high = value * 16;
    let low = suit.number();
    high + low
}

// The place of a card in the pack, for a code that is known to be one.
pub fn place_of(code: u8) -> u8
    requires { is_card code ≡ true }
    ensures { result ≡ place_of code }
{
    let row = code / 16 - 1;
    let before = row * 4;
    before + code % 16
}

impl Card {
    pub fn new(suit: Suit, value: u8) -> Card
        ensures { result ≡ record { suit = suit; value = value } }
    {
        Card { suit, value }
    }

    pub fn color(self) -> Color
        ensures { result ≡ color_of self.suit }
    {
        let suit = self.suit;
        suit.color()
    }

    // None where the value is no card's.
    pub fn encode(self) -> Option<u8>
        ensures { given_or 30 result ≡ code_asked self }
    {
        if is_value(self.value) {
            Some(code_of(self))
        } else {
            None
        }
    }

    // None for a code that is no card's.
    pub fn decode(code: u8) -> Option<Card>
        ensures { given_or 30 result ≡ card_asked code }
    {
        if is_card(code) {
            Some(card_of(code))
        } else {
            None
        }
    }
}
