// The answer to a search that has ended, and its list (after freecell/solver.rs, `reconstruct_moves`, changed: NOTICE).
#![tactic(auto)]

ghost use Rattle.std.specs.Prelude.{◌≡◌, true, not, ◌&&◌, eqb, ◌<◌, ◌≤◌, length};
ghost use Rattle.board.specs.Record.{shown};
ghost use Rattle.board.specs.Inner.{Sound};
ghost use Rattle.nodes.specs.Nodes.{Nodes};
ghost use Rattle.nodes.specs.Line.{line_to, table_to};
ghost use Rattle.questions.specs.Questions.{won_on};
ghost use Rattle.memory.specs.declared.Ended.TheVariants.{Limit};
ghost use Rattle.finish.specs.Said.{number_said};
ghost use Rattle.finish.specs.Inner.{Closed, Gives, line_or, limit_said, answer_by};
ghost use Rattle.moves.specs.Written.{list_room};

use board::{Board, Refusal};
use memory::{Counts, Ended};

// How a search was answered; specs/Said.antt has SCOPE.md's number for each.
#[derive(Clone, Copy, PartialEq, Eq)]
pub enum Said {
    Won = 0,
    BestAtLimit = 1,
    BestExhausted = 2,
    Limit = 3,
    Exhausted = 4,
    BestIsWon = 5,
    OutOfNodes = 23,
}

// The answer, the pops, and how many moves the list has.
#[derive(Clone, Copy)]
pub struct Judged {
    pub said: Said,
    pub pops: usize,
    pub moves: usize,
}

// SCOPE.md's number of an answer, or of why there is none.
pub fn number(answer: Result<Said, Refusal>) -> u8
    ensures { result ≡ number_said answer }
{
    match answer {
        Ok(said) => said as u8,
        Err(why) => board::number(why),
    }
}

// The line of node i is the list.
fn with_line(root: Board, said: Said, i: usize, c: Counts, nodes: &[u32], list: &mut [u8]) -> Judged
    requires sound { Sound root }
    requires nodes { Nodes (shown root) nodes.now c.born }
    requires i_lt_born { i < c.born }
    requires list_room_in_bounds { list_room ≤ length list.old }
    ensures { Gives (line_or true said said (line_to (shown root) nodes.now i) c.pops) list.old list.new result }
{
    let moves = lines::write_line(root, nodes, c.born, i, list);
    let pops = c.pops;
    Judged { said, pops, moves }
}

// The best line, if there is one and partial lists are allowed.
fn best_line(
    root: Board,
    partial: bool,
    with: Said,
    without: Said,
    c: Counts,
    nodes: &[u32],
    list: &mut [u8],
) -> Judged
    requires sound { Sound root }
    requires nodes { Nodes (shown root) nodes.now c.born }
    requires best_lt_born { c.best < c.born }
    requires list_room_in_bounds { list_room ≤ length list.old }
    ensures { Gives (line_or (partial && not (eqb c.best 0)) with without (line_to (shown root) nodes.now c.best) c.pops) list.old list.new result }
{
    if partial {
        if 0 < c.best {
            return with_line(root, with, c.best, c, nodes, list);
        }
    }
    let pops = c.pops;
    Judged {
        said: without,
        pops,
        moves: 0,
    }
}

// What the best line is called at the limit, by its last board.
fn best_said(root: Board, c: Counts, nodes: &[u32]) -> Said
    requires sound { Sound root }
    requires nodes { Nodes (shown root) nodes.now c.born }
    requires best_lt_born { c.best < c.born }
    ensures { result ≡ limit_said (won_on (table_to (shown root) nodes.now c.best).foundation) }
{
    let b = nodes::path::board_of(root, nodes, c.born, c.best);
    if questions::won_at(&b.foundation) {
        return Said::BestIsWon;
    }
    Said::BestAtLimit
}

// The answer at the limit.
fn limit_line(root: Board, partial: bool, c: Counts, nodes: &[u32], list: &mut [u8]) -> Judged
    requires sound { Sound root }
    requires nodes { Nodes (shown root) nodes.now c.born }
    requires best_lt_born { c.best < c.born }
    requires list_room_in_bounds { list_room ≤ length list.old }
    ensures { Gives (answer_by (shown root) nodes.now partial (Limit c)) list.old list.new result }
{
    let with = best_said(root, c, nodes);
    best_line(root, partial, with, Said::Limit, c, nodes, list)
}

// The answer of a search that has ended.
pub fn finish(root: Board, partial: bool, e: Ended, nodes: &[u32], list: &mut [u8]) -> Judged
    requires sound { Sound root }
    requires closed { Closed (shown root) nodes.now e }
    requires list_room_in_bounds { list_room ≤ length list.old }
    ensures { Gives (answer_by (shown root) nodes.now partial e) list.old list.new result }
{
    match e {
        Ended::Won { node, counts } => with_line(root, Said::Won, node, counts, nodes, list),
        Ended::Limit(c) => limit_line(root, partial, c, nodes, list),
        Ended::Exhausted(c) => best_line(
            root,
            partial,
            Said::BestExhausted,
            Said::Exhausted,
            c,
            nodes,
            list,
        ),
        Ended::OutOfNodes { pops } => Judged {
            said: Said::OutOfNodes,
            pops,
            moves: 0,
        },
    }
}
