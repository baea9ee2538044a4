// What is handed back at the start of lent room; with too little room nothing is written, and 21 is told.
ghost use Rattle.std.specs.Prelude.{◌≡◌};
ghost use Rattle.board.specs.Refusal.{answered};
ghost use Rattle.crossing.specs.Crossing.{left, within};
ghost use Rattle.crossing.specs.Boards.{board_left, line_left};
ghost use Rattle.crossing.specs.Values.{numbers_left};
ghost use Rattle.crossing.specs.Questions.{first_left};
ghost use Rattle.crossing.specs.Inner.{SaidAnswer, ended};

use crate::{tell, wire};
use board::{Board, Refusal};
use features::Features;
use moves::Move;
use replay::Replayed;

// How many numbers the features are, and how many bytes a move is.
const FEATURES: usize = 7;

const RECORD: usize = 5;

// An answer that needs so much of the lent room.
fn within<T: Copy>(need: usize, lent: usize, answer: Result<T, Refusal>) -> Result<T, Refusal>
    ensures { answered result ≡ within need lent (answered answer) }
{
    let given = answer?;
    if lent < need {
        return Err(Refusal::LittleRoom);
    }
    Ok(given)
}

// A board, unless it was refused.
#[tactic(auto, unfolding(crate::specs::Boards::board_left))]
pub fn board(answer: Result<Board, Refusal>, room: &mut [u8]) -> u8
    ensures { left result room.new ≡ board_left (answered answer) room.old }
{
    match within(wire::BYTES, room.len(), answer) {
        Ok(b) => {
            wire::put_board(b, room);
            0
        }
        Err(why) => board::number(why),
    }
}

// The board where a line ended, and the number of moves played; the number is that of the move that stopped it, if one did.
#[tactic(auto, unfolding(crate::specs::Boards::line_left))]
pub fn line(answer: Result<Replayed, Refusal>, room: &mut [u8], moves: &mut usize) -> u8
    ensures { left result (room.new, moves.new) ≡ line_left (ended answer) room.old moves.old }
{
    match within(wire::BYTES, room.len(), answer) {
        Ok(end) => {
            wire::put_board(end.board, room);
            *moves = end.moves;
            tell::verdict(end.said)
        }
        Err(why) => board::number(why),
    }
}

// The seven features, in the record's order.
#[tactic(auto, unfolding(base::specs::Put::over, crate::specs::Values::numbers_left))]
pub fn features(answer: Result<Features, Refusal>, room: &mut [u64]) -> u8
    ensures { left result room.new ≡ numbers_left (answered answer) room.old }
{
    match within(FEATURES, room.len(), answer) {
        Ok(f) => {
            room[..FEATURES].copy_from_slice(&[
                f.home as u64,
                f.immediate as u64,
                f.blocked as u64,
                f.imbalance as u64,
                f.used as u64,
                f.empty as u64,
                f.longest as u64,
            ]);
            0
        }
        Err(why) => board::number(why),
    }
}

// The record of a safe move, if there is one, and how many there are: one or none.
#[tactic(auto, using(moves::proofs::Writing::written_none))]
pub fn safe_move(answer: Result<Option<Move>, Refusal>, bytes: &mut [u8], count: &mut usize) -> u8
    requires { SaidAnswer answer }
    ensures { left result (bytes.new, count.new) ≡ first_left (answered answer) bytes.old count.old }
{
    match within(RECORD, bytes.len(), answer) {
        Ok(Some(m)) => {
            *count = moves::write(bytes, 0, m);
            0
        }
        Ok(None) => {
            *count = 0;
            0
        }
        Err(why) => board::number(why),
    }
}
