// What the search tries on a board, in order (after freecell/solver.rs, `find_all_moves`, changed: NOTICE).
#![tactic(auto)]

ghost use Rattle.std.specs.Prelude.{◌≤◌, length};
ghost use Rattle.board.specs.Record.{shown, laid};
ghost use Rattle.board.specs.Inner.{Sound};
ghost use Rattle.moves.specs.Written.{Adds};
ghost use Rattle.generate.specs.Asked.{Finds};
ghost use Rattle.candidates.specs.Candidates.{candidates};
ghost use Rattle.candidates.specs.Inner.{tried_room};

use board::verdict::inspect;
use board::{Board, CODES, Refusal};
use candidates::{MOST_TRIED, TRIED_ROOM};
use generate::RECORD_ROOM;

pub mod ranks;

// The candidates of a well formed board, in order.
pub fn candidates_at<'a>(
    cells: &'a [u8; 4],
    foundation: &'a [u8; 4],
    counts: &'a [u8; 8],
    tableau: &'a [u8; CODES],
    out: &mut [u8],
) -> usize
    requires sound { Sound (laid cells.now foundation.now counts.now tableau.now) }
    requires tried_room_in_bounds { tried_room ≤ length out.old }
    ensures { Adds out.old out.new 0 result (candidates (shown (laid cells.now foundation.now counts.now tableau.now))) }
{
    let before = features::compute_features(cells, foundation, counts, tableau);
    let mut list = [0u8; TRIED_ROOM];
    let mut keys = [0u64; MOST_TRIED];
    let n = tried::tried_at(cells, foundation, counts, tableau, before, &mut list);
    ranks::rank_all(
        cells, foundation, counts, tableau, before, &list, n, &mut keys,
    );
    ranks::emit(&list, &keys, n, out)
}

// 12 to 15, 21, or the candidates of a board in order.
pub fn candidates_of(b: Board, out: &mut [u8]) -> Result<usize, Refusal>
    ensures { Finds b (candidates (shown b)) out.old out.new result }
{
    inspect(&b.cells, &b.foundation, &b.counts, &b.tableau)?;
    if out.len() < RECORD_ROOM {
        return Err(Refusal::LittleRoom);
    }
    let made = candidates_at(&b.cells, &b.foundation, &b.counts, &b.tableau, out);
    Ok(made)
}
