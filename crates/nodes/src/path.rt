// From a node up to the root, and down again on a board (after freecell/solver.rs, `reconstruct_moves`, changed: NOTICE).
ghost use Rattle.std.specs.Prelude.{◌≡◌, ◌<◌, ◌≤◌, length, take};
ghost use Rattle.board.specs.Record.{shown, board_of, laid};
ghost use Rattle.board.specs.Inner.{Sound};
ghost use Rattle.nodes.specs.Line.{steps_to, table_by, table_to};
ghost use Rattle.nodes.specs.Nodes.{Makes, Costs, Linked, Nodes};
ghost use Rattle.nodes.specs.Path.{Climbs, Plays, Leads};

use crate::words;
use board::{Board, CODES};
use moves::MOST_MOVES;

// The steps from node i up to the root, the last one first; how many there are.
pub fn climb(nodes: &[u32], n: usize, i: usize, path: &mut [u32]) -> usize
    requires linked { Linked nodes.now n }
    requires i_lt_n { i < n }
    requires i_in_bounds { length (steps_to nodes.now i) ≤ length path.old }
    ensures { Climbs (steps_to nodes.now i) path.old path.new result }
{
    let mut at = i;
    let mut deep = 0;
    // how many steps there are is known only at the root
    while 0 < at {
        path[deep] = words::step_of(nodes, at);
        deep += 1;
        at = words::parent_of(nodes, at);
    }
    deep
}

// One step on a board that lies in four arrays: the move and the chain after it. A step that costs one move has no chain, and
// none is looked for.
fn play_step(
    step: u32,
    before: usize,
    cells: &mut [u8; 4],
    foundation: &mut [u8; 4],
    counts: &mut [u8; 8],
    tableau: &mut [u8; CODES],
)
    requires sound { Sound (laid cells.old foundation.old counts.old tableau.old) }
    requires makes { Makes (shown (laid cells.old foundation.old counts.old tableau.old)) step }
    requires costs { Costs (shown (laid cells.old foundation.old counts.old tableau.old)) before step }
    ensures { Plays (laid cells.old foundation.old counts.old tableau.old) step (laid cells.new foundation.new counts.new tableau.new) }
{
    let Some(m) = words::move_in(step) else {
        return;
    };
    let cost = words::cost_in(step);
    let spent = cost - before;
    if spent == 1 {
        play::apply_to(m, cells, foundation, counts, tableau);
        return;
    }
    candidates::child_to(m, cells, foundation, counts, tableau);
}

// The first `deep` steps of a path, the last one first.
fn play_down(root: Board, path: &[u32], deep: usize) -> Board
    requires { Leads root path.now deep }
    ensures value { result ≡ board_of (table_by (shown root) (take deep path.now)) }
    ensures sound { Sound result }
{
    let mut cells = root.cells;
    let mut foundation = root.foundation;
    let mut counts = root.counts;
    let mut tableau = root.tableau;
    let mut cost = 0;
    for left in (0..deep).rev() {
        let step = path[left];
        play_step(
            step,
            cost,
            &mut cells,
            &mut foundation,
            &mut counts,
            &mut tableau,
        );
        cost = words::cost_in(step);
    }
    Board {
        cells,
        foundation,
        counts,
        tableau,
    }
}

// The board of a node: the root's, with the steps to the node played on it.
pub fn board_of(root: Board, nodes: &[u32], n: usize, i: usize) -> Board
    requires sound { Sound root }
    requires nodes { Nodes (shown root) nodes.now n }
    requires i_lt_n { i < n }
    ensures value { result ≡ board_of (table_to (shown root) nodes.now i) }
    ensures sound_2 { Sound result }
{
    let mut path = [0u32; MOST_MOVES];
    let deep = climb(nodes, n, i, &mut path);
    play_down(root, &path, deep)
}
