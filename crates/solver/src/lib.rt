// The search in lent memory, from the refusals to the answer (after freecell/solver.rs, `solve_with_stats`, changed: NOTICE).
#![tactic(auto)]

ghost use Rattle.std.specs.Prelude.{◌≡◌, ◌≤◌, length};
ghost use Rattle.board.specs.Record.{shown};
ghost use Rattle.board.specs.Inner.{Sound};
ghost use Rattle.finish.specs.Said.{told};
ghost use Rattle.finish.specs.Inner.{Gives};
ghost use Rattle.search.specs.Freecell.{judge};
ghost use Rattle.solver.specs.Capacity.{capacity_of, entries_of};
ghost use Rattle.solver.specs.Searched.{outcome, searched, most_pops};
ghost use Rattle.solver.specs.Inner.{Accepts, Roomy};
ghost use Rattle.memory.specs.Memory.{lent};
ghost use Rattle.moves.specs.Written.{list_room};

use board::verdict::inspect;
use board::{Board, Refusal};
use finish::{Judged, Said};
use memory::Room;
use moves::LIST_ROOM;

// The largest budget.
pub const MOST_POPS: usize = 1_000_000;

// How many nodes the lent parts hold.
pub fn capacity_of(nodes: usize, heap: usize, keys: usize, costs: usize) -> usize
    ensures { result ≡ capacity_of nodes heap keys costs }
{
    let entries = (keys / 2).min((costs / 2).min(4294967295));
    (nodes / 3).min(heap.min(entries))
}

// The room for so many nodes.
pub fn room_for(capacity: usize) -> Room
    requires { capacity ≤ 4294967295 }
    ensures { result ≡ record { capacity = capacity; entries = entries_of capacity } }
{
    let twice = capacity * 2;
    Room {
        capacity,
        entries: twice.min(4294967296),
    }
}

// An accepted search, which clears the cost bytes first; the scratch is left as the search leaves it, for the caller to clear.
pub fn judge_at(
    b: Board,
    budget: usize,
    partial: bool,
    room: Room,
    nodes: &mut [u32],
    heap: &mut [u64],
    keys: &mut [u64],
    costs: &mut [u8],
    list: &mut [u8],
) -> Judged
    requires sound { Sound b }
    requires budget_le_most_pops { budget ≤ most_pops }
    requires roomy { Roomy room (lent nodes.old heap.old keys.old costs.old) }
    requires list_room_in_bounds { list_room ≤ length list.old }
    ensures { Gives (judge (shown b) budget room.capacity partial) list.old list.new result }
{
    base::blank::clear(costs);
    if questions::won_at(&b.foundation) {
        return Judged {
            said: Said::Won,
            pops: 0,
            moves: 0,
        };
    }
    let c = turns::seed(b, room, nodes, heap, keys, costs);
    let e = turns::go(b, budget, room, c, nodes, heap, keys, costs);
    finish::finish(b, partial, e, nodes, list)
}

// Why a search is refused, in this order: 12 to 15, 20, 21, 22.
fn examine(b: Board, budget: usize, capacity: usize, lent: usize) -> Result<(), Refusal>
    ensures { Accepts b budget capacity lent result }
{
    inspect(&b.cells, &b.foundation, &b.counts, &b.tableau)?;
    if MOST_POPS < budget {
        return Err(Refusal::OverBudget);
    }
    if lent < LIST_ROOM {
        return Err(Refusal::LittleRoom);
    }
    if capacity == 0 {
        return Err(Refusal::NoNode);
    }
    Ok(())
}

// 12 to 15, 20, 21, 22, or the answer; the scratch is all zero after it.
pub fn solve(
    b: Board,
    budget: usize,
    partial: bool,
    nodes: &mut [u32],
    heap: &mut [u64],
    keys: &mut [u64],
    costs: &mut [u8],
    list: &mut [u8],
) -> Result<Judged, Refusal>
    ensures { outcome (told result) nodes.new heap.new keys.new costs.new list.new ≡ searched nodes.old heap.old keys.old costs.old list.old b budget partial }
{
    let capacity = capacity_of(nodes.len(), heap.len(), keys.len(), costs.len());
    examine(b, budget, capacity, list.len())?;
    let room = room_for(capacity);
    let judged = judge_at(b, budget, partial, room, nodes, heap, keys, costs, list);
    base::blank::clear(nodes);
    base::blank::clear(heap);
    base::blank::clear(keys);
    base::blank::clear(costs);
    Ok(judged)
}
