// The whole text of the program `oneboard`, written into lent room.
#![tactic(auto)]

ghost use Rattle.std.specs.Prelude.{false, ◌+◌, ◌≤◌, length};
ghost use Rattle.board.specs.Record.{shown};
ghost use Rattle.intake.proofs.Accepted.{Fine};
ghost use Rattle.base.specs.Put.{Puts};
ghost use Rattle.search.specs.Freecell.{judge};
ghost use Rattle.onetext.specs.Text.{answer_text, hand_text};
ghost use Rattle.onetext.specs.Told.{Tells};
ghost use Rattle.onetext.specs.Inner.{Scratch};

use board::Board;
use moves::LIST_ROOM;

mod write;

// The answer of a search with budget 100 and no partial, and its moves, at a place.
fn put_answer(
    b: Board,
    out: &mut [u8],
    at: usize,
    nodes: &mut [u32],
    heap: &mut [u64],
    keys: &mut [u64],
    costs: &mut [u8],
    list: &mut [u8],
) -> usize
    requires fine { Fine b }
    requires at_in_bounds { at + 4012 ≤ length out.old }
    requires scratch { Scratch nodes.old heap.old keys.old costs.old list.old }
    ensures { Puts out.old out.new at result (answer_text (judge (shown b) 100 64 false)) }
{
    // it is not refused: the board is fine, and all that is lent is long enough
    let Ok(judged) = solver::solve(b, 100, false, nodes, heap, keys, costs, list) else {
        return at;
    };
    let pops = judged.pops as u8;
    let moves = judged.moves as u8;
    let first = [finish::number(Ok(judged.said)), pops, moves];
    let after = write::put_line(out, at, &first);
    write::put_records(out, after, list, judged.moves)
}

// The token on a line, and the answer; the search gets room for 64 nodes.
fn put_hand(b: Board, out: &mut [u8]) -> usize
    requires fine { Fine b }
    requires in_bounds { 4096 ≤ length out.old }
    ensures { Puts out.old out.new 0 result (hand_text (shown b)) }
{
    let f = features::compute_features(&b.cells, &b.foundation, &b.counts, &b.tableau);
    let token = score::token::token_at(f, out);
    let after = base::put::put_bytes(out, token, b"\n");
    let mut nodes = [0u32; 192];
    let mut heap = [0u64; 64];
    let mut keys = [0u64; 128];
    let mut costs = [0u8; 128];
    let mut list = [0u8; LIST_ROOM];
    put_answer(
        b, out, after, &mut nodes, &mut heap, &mut keys, &mut costs, &mut list,
    )
}

// The text for an image, at the start of the room; answers how many bytes it has, 0 for room under 4,096.
pub fn judge_image(image: &[u8], out: &mut [u8]) -> usize
    ensures { Tells image.now out.old out.new result }
{
    if out.len() < 4096 {
        return 0;
    }
    if 1024 < image.len() {
        return write::put_line(out, 0, &[10]);
    }
    match intake::image::read(image) {
        Ok(b) => put_hand(b, out),
        Err(why) => write::put_line(out, 0, &[board::number(why)]),
    }
}
