// What the search tries on a board: specs/ says which moves, and in which order; `tried` lists them, `ordered` puts them in order. Here is
// the child that one of them makes (after freecell/solver.rs, `expand_moves`, changed: NOTICE).
#![tactic(auto)]

ghost use Rattle.board.specs.Record.{laid};
ghost use Rattle.board.specs.Inner.{Sound};
ghost use Rattle.play.specs.Change.{Ready};
ghost use Rattle.candidates.specs.Inner.{Bears};

use board::CODES;
use moves::Move;

// No board has more candidates, and the room for their records.
pub const MOST_TRIED: usize = 332;

pub const TRIED_ROOM: usize = 5 * MOST_TRIED;

// What is asked of a move before it is tried.
#[derive(Clone, Copy)]
pub enum Test {
    Safe,
    Unsafe,
    Worthwhile,
}

// A candidate and the chain after it, played on a board that lies in four arrays: how many moves that is.
pub fn child_to(
    m: Move,
    cells: &mut [u8; 4],
    foundation: &mut [u8; 4],
    counts: &mut [u8; 8],
    tableau: &mut [u8; CODES],
) -> usize
    requires { Ready (laid cells.old foundation.old counts.old tableau.old) m }
    ensures bears { Bears (laid cells.old foundation.old counts.old tableau.old) m result (laid cells.new foundation.new counts.new tableau.new) }
    ensures sound { Sound (laid cells.new foundation.new counts.new tableau.new) }
{
    play::apply_to(m, cells, foundation, counts, tableau);
    let after = safe::chain_to(cells, foundation, counts, tableau);
    let moves = after + 1;
    moves
}
