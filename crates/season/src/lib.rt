// The season's figures: the hands of a run of numbers, judged in rising order, on one sheet.
#![tactic(auto)]

ghost use Rattle.std.specs.Prelude.{◌≡◌, not, length};
ghost use Rattle.intake.specs.Number.{is_number};
ghost use Rattle.sheets.specs.Over.{sheet_over, between};
ghost use Rattle.sheets.specs.Noted.{noted};
ghost use Rattle.sheets.specs.Promises.{Enterable};
ghost use Rattle.season.specs.Season.{result_of, lent_of};
ghost use Rattle.season.specs.Inner.{settings_of, Playable, Accepts, Leaves};

use board::Refusal;
use memory::Room;
use moves::LIST_ROOM;
use sheets::{LAST_DEAL, SHEET};
use solver::MOST_POPS;

// One deal, judged and entered; its list is of no interest beyond its length.
fn enter_deal(
    n: usize,
    budget: usize,
    partial: bool,
    room: Room,
    nodes: &mut [u32],
    heap: &mut [u64],
    keys: &mut [u64],
    costs: &mut [u8],
    sheet: &mut [u64],
)
    requires playable { Playable n n budget room nodes.old heap.old keys.old costs.old }
    requires enterable { Enterable sheet.old n (result_of (settings_of budget room.capacity partial) n) }
    ensures { sheet.new ≡ noted sheet.old n (result_of (settings_of budget room.capacity partial) n) }
{
    let b = intake::number::hand(n).unwrap();
    let mut list = [0u8; LIST_ROOM];
    let j = solver::judge_at(
        b, budget, partial, room, nodes, heap, keys, costs, &mut list,
    );
    entries::note(sheet, n, finish::number(Ok(j.said)), j.pops, j.moves);
}

// Deal after deal.
fn judge_deals(
    first: usize,
    last: usize,
    budget: usize,
    partial: bool,
    room: Room,
    nodes: &mut [u32],
    heap: &mut [u64],
    keys: &mut [u64],
    costs: &mut [u8],
    sheet: &mut [u64],
)
    requires playable { Playable first last budget room nodes.old heap.old keys.old costs.old }
    requires sheet_len { length sheet.old ≡ 716 }
    ensures { sheet.new ≡ sheet_over (settings_of budget room.capacity partial) (result_of (settings_of budget room.capacity partial)) (between first last) }
{
    entries::start(sheet, budget as u64, room.capacity as u64, partial);
    for n in first..=last {
        enter_deal(n, budget, partial, room, nodes, heap, keys, costs, sheet);
    }
}

// No hand has the number.
#[tactic(auto, unfolding(intake::specs::Number::is_number))]
fn no_number(n: usize) -> bool
    ensures { result ≡ not (is_number n) }
{
    !(1..=LAST_DEAL).contains(&n)
}

// Why a season is refused, in this order: 41, 20, 21, 22.
fn examine(
    first: usize,
    last: usize,
    budget: usize,
    capacity: usize,
    words: usize,
) -> Result<(), Refusal>
    ensures { Accepts first last budget capacity words result }
{
    if no_number(first) {
        return Err(Refusal::NoNumber);
    }
    if no_number(last) {
        return Err(Refusal::NoNumber);
    }
    if MOST_POPS < budget {
        return Err(Refusal::OverBudget);
    }
    if words < SHEET {
        return Err(Refusal::LittleRoom);
    }
    if capacity == 0 {
        return Err(Refusal::NoNode);
    }
    Ok(())
}

// 41, 20, 21, 22, or the sheet over the deals from first to last, at the start of its room; the scratch is all zero after it.
pub fn season(
    first: usize,
    last: usize,
    budget: usize,
    partial: bool,
    nodes: &mut [u32],
    heap: &mut [u64],
    keys: &mut [u64],
    costs: &mut [u8],
    sheet: &mut [u64],
) -> Result<(), Refusal>
    ensures { Leaves (lent_of nodes.old heap.old keys.old costs.old sheet.old) (lent_of nodes.new heap.new keys.new costs.new sheet.new) first last budget partial result }
{
    let capacity = solver::capacity_of(nodes.len(), heap.len(), keys.len(), costs.len());
    examine(first, last, budget, capacity, sheet.len())?;
    let room = solver::room_for(capacity);
    judge_deals(
        first,
        last,
        budget,
        partial,
        room,
        nodes,
        heap,
        keys,
        costs,
        &mut sheet[..SHEET],
    );
    base::blank::clear(nodes);
    base::blank::clear(heap);
    base::blank::clear(keys);
    base::blank::clear(costs);
    Ok(())
}
