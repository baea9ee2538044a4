// Hands by number: the deck of the number, dealt.
ghost use Rattle.std.specs.Prelude.{◌≡◌};
ghost use Rattle.board.specs.Refusal.{answered};
ghost use Rattle.intake.specs.Number.{number_asked};

use crate::deal::deal;
use board::{Board, Refusal};

// The largest number.
const MOST_NUMBER: usize = 32_000;

// 41, or the board of the number.
pub fn hand(number: usize) -> Result<Board, Refusal>
    ensures { answered result ≡ number_asked number }
{
    if number == 0 {
        return Err(Refusal::NoNumber);
    }
    if MOST_NUMBER < number {
        return Err(Refusal::NoNumber);
    }
    let deck = shuffle::deck_of(number);
    deal(&deck)
}
