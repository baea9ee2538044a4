// A board as 432 bytes: four cells, four foundation counts, eight column counts, 416 codes.
ghost use Rattle.std.specs.Prelude.{◌≡◌, ◌≤◌, length};
ghost use Rattle.base.specs.Answer.{given};
ghost use Rattle.base.specs.Put.{over};
ghost use Rattle.board.specs.Refusal.{answered};
ghost use Rattle.crossing.specs.Crossing.{asked};
ghost use Rattle.crossing.specs.Wire.{board_in, bytes_of};

use board::{Board, CODES, Refusal};

// What a board takes.
pub const BYTES: usize = 432;

// The board of 432 bytes.
#[tactic(auto, unfolding(crate::specs::Wire::board_in))]
pub fn board_in(bytes: &[u8]) -> Board
    requires { length bytes.now ≡ 432 }
    ensures { result ≡ board_in bytes.now }
{
    let mut cells = [0u8; 4];
    let mut foundation = [0u8; 4];
    let mut counts = [0u8; 8];
    let mut tableau = [0u8; CODES];
    cells.copy_from_slice(&bytes[0..4]);
    foundation.copy_from_slice(&bytes[4..8]);
    counts.copy_from_slice(&bytes[8..16]);
    tableau.copy_from_slice(&bytes[16..432]);
    Board {
        cells,
        foundation,
        counts,
        tableau,
    }
}

// The board that was lent as bytes: 12 for any other number of them. A question about it follows with `and_then`.
pub fn lent(bytes: &[u8]) -> Result<Board, Refusal>
    ensures { answered result ≡ asked bytes.now given }
{
    if bytes.len() != BYTES {
        return Err(Refusal::WrongShape);
    }
    Ok(board_in(bytes))
}

// A board's bytes at the start of lent room.
pub fn put_board(b: Board, room: &mut [u8])
    requires { 432 ≤ length room.old }
    ensures { room.new ≡ over (bytes_of b) room.old }
{
    room[0..4].copy_from_slice(&b.cells);
    room[4..8].copy_from_slice(&b.foundation);
    room[8..16].copy_from_slice(&b.counts);
    room[16..432].copy_from_slice(&b.tableau);
}
