// What a written move means on a board, and how a move is written there; why a line of them is refused.
#![tactic(auto)]

ghost use Rattle.std.specs.Prelude.{◌≡◌};
ghost use Rattle.board.specs.declared.Refusal.TheVariants.{WrongText};
ghost use Rattle.sense.specs.declared.LineError.TheVariants.{Refused, At};

use board::Refusal;
use notation::WrongSign;

pub mod meant;
pub mod noted;

// Why a line is refused: as a whole, or at the place of a sign (42) or of a move.
#[derive(Clone, Copy)]
pub enum LineError {
    Refused(Refusal),
    At(Refusal, usize),
}

impl From<Refusal> for LineError {
    ghost from_gives = { λ why e. e ≡ Refused why };

    fn from(why: Refusal) -> LineError {
        LineError::Refused(why)
    }
}

impl From<WrongSign> for LineError {
    ghost from_gives = { λ wrong e. e ≡ At WrongText wrong.place };

    fn from(wrong: WrongSign) -> LineError {
        LineError::At(Refusal::WrongText, wrong.place)
    }
}

#[cfg(test)]
mod tests {
    use super::*;

    // A line that goes wrong at a sign is refused with 42, at the sign's place.
    #[test]
    fn wrong_sign_has_its_place(rt: HostRuntime) {
        for place in [0, 7, 2100] {
            let LineError::At(why, at) = LineError::from(WrongSign { place }) else {
                panic!(rt; "refused as a whole")
            };
            assert_eq!(rt; (board::number(why), at), (42, place));
        }
    }
}
