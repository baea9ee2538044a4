// A node's children, one after the other (after freecell/solver.rs, the loop over `expansions`, changed: NOTICE).
#![tactic(auto)]

ghost use Rattle.std.specs.Prelude.{◌≡◌, ◌<◌, ◌≤◌};
ghost use Rattle.board.specs.Record.{shown, laid};
ghost use Rattle.costs.specs.Entries.{used};
ghost use Rattle.costs.specs.Table.{Table};
ghost use Rattle.candidates.specs.Candidates.{candidates};
ghost use Rattle.candidates.specs.Inner.{Playable, moves_in, Records};
ghost use Rattle.nodes.specs.Step.{cost_at};
ghost use Rattle.memory.specs.Steps.{counted, counted_with, Wrote};
ghost use Rattle.children.specs.Inner.{Chooses, Birth, Stands, Bears, Expands};
ghost use Rattle.memory.specs.Memory.{lent};

use board::{Board, CODES};
use candidates::TRIED_ROOM;
use memory::{Counts, Room};
use moves::{MOST_MOVES, Move};

// What is known for a key, against a cost.
fn choose<'a>(keys: &'a [u64], costs: &'a [u8], room: Room, key: u64, cost: usize) -> Option<usize>
    requires table { Table keys.now costs.now room.entries }
    requires entries_bound { used costs.now room.entries < room.entries }
    ensures { Chooses keys.now costs.now room.entries key cost result }
{
    match costs::find(keys, costs, room.entries, key) {
        costs::Slot::At(i) if usize::from(costs::cost_at(costs, i)) <= cost => None,
        costs::Slot::At(i) => Some(i),
        costs::Slot::Free(i) => Some(i),
        costs::Slot::Full => None,
    }
}

// The counts after a birth: the best moves only to a strictly higher score.
fn count_birth(c: Counts, progress: usize) -> Counts
    requires born_bound { c.born < 4294967296 }
    requires waiting_le_born { c.waiting ≤ c.born }
    ensures { result ≡ counted_with c progress }
{
    let next = Counts {
        born: c.born + 1,
        waiting: c.waiting + 1,
        ..c
    };
    if c.progress < progress {
        return Counts {
            best: c.born,
            progress,
            ..next
        };
    }
    next
}

// A child is written: its node, its entry in the table, its key among the waiting.
fn birth<'a>(
    parent: usize,
    m: Move,
    cost: usize,
    slot: usize,
    key: u64,
    cells: &'a [u8; 4],
    foundation: &'a [u8; 4],
    counts: &'a [u8; 8],
    tableau: &'a [u8; CODES],
    room: Room,
    c: Counts,
    nodes: &mut [u32],
    heap: &mut [u64],
    keys: &mut [u64],
    costs: &mut [u8],
) -> Counts
    requires { Birth room (lent nodes.old heap.old keys.old costs.old) c parent m cost slot key (laid cells.now foundation.now counts.now tableau.now) }
    ensures wrote { Wrote room (lent nodes.old heap.old keys.old costs.old) (lent nodes.new heap.new keys.new costs.new) c parent m cost slot (shown (laid cells.now foundation.now counts.now tableau.now)) }
    ensures value { result ≡ counted c (shown (laid cells.now foundation.now counts.now tableau.now)) }
{
    let f = features::compute_features(cells, foundation, counts, tableau);
    let hope = score::scores::heuristic_key(f);
    let sum = cost + hope;
    let waits = frontier::key::pack(sum, hope, c.born);
    let byte = cost as u8;
    nodes::words::add_node(nodes, c.born, parent, m, cost, slot);
    costs::store(keys, costs, room.entries, slot, key, byte);
    frontier::put(heap, c.waiting, waits);
    count_birth(c, score::scores::progress_key(f))
}

// The child of node i by a candidate: dropped, without room, or born.
fn bear(
    root: Board,
    i: usize,
    cost: usize,
    b: Board,
    m: Move,
    room: Room,
    c: Counts,
    nodes: &mut [u32],
    heap: &mut [u64],
    keys: &mut [u64],
    costs: &mut [u8],
) -> Option<Counts>
    requires stands { Stands root room (lent nodes.old heap.old keys.old costs.old) c i b }
    requires cost_value { cost ≡ cost_at nodes.old i }
    requires playable { Playable (shown b) m }
    ensures { Bears root room (lent nodes.old heap.old keys.old costs.old) (lent nodes.new heap.new keys.new costs.new) c i m result }
{
    let mut cells = b.cells;
    let mut foundation = b.foundation;
    let mut counts = b.counts;
    let mut tableau = b.tableau;
    let made = candidates::child_to(m, &mut cells, &mut foundation, &mut counts, &mut tableau);
    let total = cost + made;
    if MOST_MOVES < total {
        return Some(c);
    }
    let key = signature::signature_at(&cells, &foundation, &counts, &tableau);
    let Some(slot) = choose(keys, costs, room, key, total) else {
        return Some(c);
    };
    if room.capacity <= c.born {
        return None;
    }
    Some(birth(
        i,
        m,
        total,
        slot,
        key,
        &cells,
        &foundation,
        &counts,
        &tableau,
        room,
        c,
        nodes,
        heap,
        keys,
        costs,
    ))
}

// The children of node i by the first n records of a list.
fn bear_all(
    root: Board,
    i: usize,
    cost: usize,
    b: Board,
    list: &[u8],
    n: usize,
    room: Room,
    c: Counts,
    nodes: &mut [u32],
    heap: &mut [u64],
    keys: &mut [u64],
    costs: &mut [u8],
) -> Option<Counts>
    requires stands { Stands root room (lent nodes.old heap.old keys.old costs.old) c i b }
    requires cost_value { cost ≡ cost_at nodes.old i }
    requires records { Records list.now n }
    requires n_value { moves_in list.now n ≡ candidates (shown b) }
    ensures { Expands root room (lent nodes.old heap.old keys.old costs.old) (lent nodes.new heap.new keys.new costs.new) c i result }
{
    let mut counts = c;
    for k in 0..n {
        let from = k * 5;
        let m = moves::decode(&list[from..from + 5])?;
        counts = bear(root, i, cost, b, m, room, counts, nodes, heap, keys, costs)?;
    }
    Some(counts)
}

// All children of node i.
pub fn expand(
    root: Board,
    i: usize,
    cost: usize,
    b: Board,
    room: Room,
    c: Counts,
    nodes: &mut [u32],
    heap: &mut [u64],
    keys: &mut [u64],
    costs: &mut [u8],
) -> Option<Counts>
    requires stands { Stands root room (lent nodes.old heap.old keys.old costs.old) c i b }
    requires cost_value { cost ≡ cost_at nodes.old i }
    ensures { Expands root room (lent nodes.old heap.old keys.old costs.old) (lent nodes.new heap.new keys.new costs.new) c i result }
{
    let mut list = [0u8; TRIED_ROOM];
    let n = ordered::candidates_at(&b.cells, &b.foundation, &b.counts, &b.tableau, &mut list);
    bear_all(
        root, i, cost, b, &list, n, room, c, nodes, heap, keys, costs,
    )
}
