// The run: the root, then a node taken at each turn (after freecell/solver.rs, the loop over the frontier, changed: NOTICE).
#![tactic(auto)]

ghost use Rattle.std.specs.Prelude.{◌≡◌, ◌<◌, ◌≤◌};
ghost use Rattle.board.specs.Record.{shown};
ghost use Rattle.board.specs.Inner.{Sound};
ghost use Rattle.nodes.specs.Step.{cost_at};
ghost use Rattle.memory.specs.Machine.{Machine};
ghost use Rattle.memory.specs.Steps.{Blank, popped};
ghost use Rattle.costs.specs.Promises.{Vacant};
ghost use Rattle.turns.specs.Inner.{Seeds, Stood, Visits, Advances, Goes};
ghost use Rattle.children.specs.Inner.{Empty};
ghost use Rattle.memory.specs.Memory.{lent};

use board::Board;
use memory::{Advance, Counts, Ended, Room};
use moves::MOST_MOVES;

// The first entry that a table with nothing in it gives to a key.
fn first_slot<'a>(keys: &'a [u64], costs: &'a [u8], entries: usize, key: u64) -> usize
    requires { Empty keys.now costs.now entries }
    ensures { Vacant keys.now costs.now entries key result }
{
    match costs::find(keys, costs, entries, key) {
        costs::Slot::At(i) | costs::Slot::Free(i) => i,
        costs::Slot::Full => 0,
    }
}

// The root is written into memory whose cost bytes are all zero.
pub fn seed(
    root: Board,
    room: Room,
    nodes: &mut [u32],
    heap: &mut [u64],
    keys: &mut [u64],
    costs: &mut [u8],
) -> Counts
    requires sound { Sound root }
    requires blank { Blank room (lent nodes.old heap.old keys.old costs.old) }
    ensures { Seeds root room (lent nodes.new heap.new keys.new costs.new) result }
{
    let f = features::compute_features(&root.cells, &root.foundation, &root.counts, &root.tableau);
    let hope = score::scores::heuristic_key(f);
    let key = signature::signature_at(&root.cells, &root.foundation, &root.counts, &root.tableau);
    let slot = first_slot(keys, costs, room.entries, key);
    nodes::words::set_root(nodes, slot);
    costs::store(keys, costs, room.entries, slot, key, 0);
    frontier::put(heap, 0, frontier::key::pack(hope, hope, 0));
    Counts {
        born: 1,
        waiting: 1,
        best: 0,
        progress: score::scores::progress_key(f),
        pops: 0,
    }
}

// Node i is looked at: won, too deep, or expanded.
fn visit(
    root: Board,
    i: usize,
    cost: usize,
    room: Room,
    c: Counts,
    nodes: &mut [u32],
    heap: &mut [u64],
    keys: &mut [u64],
    costs: &mut [u8],
) -> Advance
    requires stood { Stood root room (lent nodes.old heap.old keys.old costs.old) c i }
    requires cost_value { cost ≡ cost_at nodes.old i }
    ensures { Visits root room (lent nodes.old heap.old keys.old costs.old) (lent nodes.new heap.new keys.new costs.new) c i result }
{
    let b = nodes::path::board_of(root, nodes, c.born, i);
    if questions::won_at(&b.foundation) {
        return Advance::WonBy { node: i, counts: c };
    }
    if MOST_MOVES <= cost {
        return Advance::Again(c);
    }
    match children::expand(root, i, cost, b, room, c, nodes, heap, keys, costs) {
        None => Advance::OutOfNodes { pops: c.pops },
        Some(next) => Advance::Again(next),
    }
}

// The counts after a node was taken.
fn count_pop(c: Counts) -> Counts
    requires waiting_nonzero { 0 < c.waiting }
    requires pops_bound { c.pops ≤ 4294967295 }
    ensures { result ≡ popped c }
{
    Counts {
        waiting: c.waiting - 1,
        pops: c.pops + 1,
        ..c
    }
}

// The first of the waiting is taken; it is skipped if a better cost is known for its board.
fn advance(
    root: Board,
    room: Room,
    c: Counts,
    nodes: &mut [u32],
    heap: &mut [u64],
    keys: &mut [u64],
    costs: &mut [u8],
) -> Advance
    requires sound { Sound root }
    requires machine { Machine (shown root) room (lent nodes.old heap.old keys.old costs.old) c }
    requires waiting_nonzero { 0 < c.waiting }
    requires pops_bound { c.pops ≤ 4294967295 }
    ensures { Advances root room (lent nodes.old heap.old keys.old costs.old) (lent nodes.new heap.new keys.new costs.new) c result }
{
    let key = frontier::take_least(heap, c.waiting);
    let i = frontier::key::number_of(key);
    let next = count_pop(c);
    let cost = nodes::words::cost_of(nodes, i);
    let slot = nodes::words::slot_of(nodes, i);
    let known = usize::from(costs::cost_at(costs, slot));
    if known != cost {
        return Advance::Again(next);
    }
    visit(root, i, cost, room, next, nodes, heap, keys, costs)
}

// Turn after turn, while something waits and the budget lasts.
pub fn go(
    root: Board,
    budget: usize,
    room: Room,
    c: Counts,
    nodes: &mut [u32],
    heap: &mut [u64],
    keys: &mut [u64],
    costs: &mut [u8],
) -> Ended
    requires sound { Sound root }
    requires machine { Machine (shown root) room (lent nodes.old heap.old keys.old costs.old) c }
    requires pops_value { c.pops ≡ 0 }
    requires budget_bound { budget ≤ 4294967295 }
    ensures { Goes root room budget (lent nodes.old heap.old keys.old costs.old) (lent nodes.new heap.new keys.new costs.new) c result }
{
    let mut counts = c;
    for _ in 0..budget {
        if counts.waiting == 0 {
            return Ended::Exhausted(counts);
        }
        match advance(root, room, counts, nodes, heap, keys, costs) {
            Advance::Again(next) => counts = next,
            Advance::WonBy { node, counts } => return Ended::Won { node, counts },
            Advance::OutOfNodes { pops } => return Ended::OutOfNodes { pops },
        }
    }
    if 0 < counts.waiting {
        return Ended::Limit(counts);
    }
    Ended::Exhausted(counts)
}
