// Which card may lie on which (after freecell/board.rs, `is_valid_tableau_run`, changed: NOTICE).
#![tactic(auto)]

ghost use Rattle.std.specs.Prelude.{◌≡◌, true};
ghost use Rattle.card.specs.Card.{is_card};
ghost use Rattle.runs.specs.Follows.{red, follows};

use card::Color;

// A card is red.
fn is_red(code: u8) -> bool
    requires { is_card code ≡ true }
    ensures { result ≡ red code }
{
    matches!(card::card_of(code).color(), Color::Red)
}

// `lower` may lie on `upper`: the rule of the game.
pub fn may_lie_on(upper: u8, lower: u8) -> bool
    requires upper_value { is_card upper ≡ true }
    requires lower_value { is_card lower ≡ true }
    ensures { result ≡ follows upper lower }
{
    let one_more = lower / 16 + 1;
    if upper / 16 != one_more {
        return false;
    }
    is_red(upper) != is_red(lower)
}
