// The line of a node as records, root first: each node's first move, and then its chain's (after freecell/solver.rs,
// `reconstruct_moves`, changed: NOTICE).
#![tactic(auto)]

ghost use Rattle.std.specs.Prelude.{◌+◌, ◌*◌, ◌<◌, ◌≤◌, length, take};
ghost use Rattle.board.specs.Record.{shown};
ghost use Rattle.board.specs.Inner.{Sound};
ghost use Rattle.moves.specs.Written.{Adds, list_room};
ghost use Rattle.safe.specs.Chain.{chain};
ghost use Rattle.candidates.specs.Children.{child_moves};
ghost use Rattle.nodes.specs.Step.{move_in};
ghost use Rattle.nodes.specs.Line.{line_by, line_to};
ghost use Rattle.nodes.specs.Nodes.{Makes, Nodes};
ghost use Rattle.nodes.specs.Path.{Leads};
ghost use Rattle.lines.specs.Written.{Writes};

use board::Board;
use moves::MOST_MOVES;

// The board after some moves, and how many records stand in the list then.
#[derive(Clone, Copy)]
pub struct Written {
    pub board: Board,
    pub records: usize,
}

// The safe chain on a board, its records after the first n.
fn write_chain(b: Board, list: &mut [u8], n: usize) -> Written
    requires sound { Sound b }
    requires b_in_bounds { (n + length (chain (shown b))) * 5 ≤ length list.old }
    ensures { Writes b (chain (shown b)) list.old list.new n result }
{
    let mut board = b;
    let mut records = n;
    for _ in 0..52u8 {
        let Some(m) = safe::first_safe_at(
            &board.cells,
            &board.foundation,
            &board.counts,
            &board.tableau,
        ) else {
            break;
        };
        records = moves::write(list, records, m);
        board = play::apply_at(board, m);
    }
    Written { board, records }
}

// One step on a board: its move, and the chain after it.
fn write_step(b: Board, step: u32, list: &mut [u8], n: usize) -> Written
    requires sound { Sound b }
    requires makes { Makes (shown b) step }
    requires step_in_bounds { (n + length (child_moves (shown b) (move_in step))) * 5 ≤ length list.old }
    ensures { Writes b (child_moves (shown b) (move_in step)) list.old list.new n result }
{
    let Some(m) = nodes::words::move_in(step) else {
        return Written {
            board: b,
            records: n,
        };
    };
    let first = moves::write(list, n, m);
    let next = play::apply_at(b, m);
    write_chain(next, list, first)
}

// The first `deep` steps of a path, the last one first.
fn write_down(root: Board, path: &[u32], deep: usize, list: &mut [u8]) -> usize
    requires leads { Leads root path.now deep }
    requires path_in_bounds { length (line_by (shown root) (take deep path.now)) * 5 ≤ length list.old }
    ensures { Adds list.old list.new 0 result (line_by (shown root) (take deep path.now)) }
{
    let mut board = root;
    let mut records = 0;
    for left in (0..deep).rev() {
        let written = write_step(board, path[left], list, records);
        board = written.board;
        records = written.records;
    }
    records
}

// All moves from the root to node i, from the start of the list.
pub fn write_line(root: Board, nodes: &[u32], n: usize, i: usize, list: &mut [u8]) -> usize
    requires sound { Sound root }
    requires nodes { Nodes (shown root) nodes.now n }
    requires i_lt_n { i < n }
    requires list_room_in_bounds { list_room ≤ length list.old }
    ensures { Adds list.old list.new 0 result (line_to (shown root) nodes.now i) }
{
    let mut path = [0u32; MOST_MOVES];
    let deep = nodes::path::climb(nodes, n, i, &mut path);
    write_down(root, &path, deep, list)
}
