// The best cost known by key, in lent memory: entries found by probing from the key's home. The table is the first `entries` of both
// lists, which may be lent longer.
#![tactic(auto)]

ghost use Rattle.std.specs.Prelude.{◌≡◌, true, ◌<◌, ◌≤◌, length};
ghost use Rattle.costs.specs.Entries.{is_used, cost_at, holds};
ghost use Rattle.costs.specs.Table.{home, Table};
ghost use Rattle.costs.specs.Promises.{Part, Scans, slot_at, Place, Finds, Stores};

// Where a key's entry is, or is to be, or neither: three cases, which an `Option` has no names for.
#[derive(Clone, Copy)]
pub enum Slot {
    At(usize),
    Free(usize),
    Full,
}

// An entry is for a key.
#[tactic(auto, unfolding(crate::specs::Entries::holds, crate::specs::Entries::is_used))]
fn is_for<'a>(keys: &'a [u64], costs: &'a [u8], i: usize, k: u64) -> bool
    requires { (i < length keys.now) × (i < length costs.now) }
    ensures { result ≡ holds keys.now costs.now i k }
{
    costs[i] != 0 && keys[i] == k
}

// Where the search for a key begins.
#[tactic(auto, unfolding(crate::specs::Table::home))]
fn home_of(entries: usize, k: u64) -> usize
    requires { 1 ≤ entries }
    ensures { result ≡ home entries k }
{
    (k % entries as u64) as usize
}

// The first entry of a part that is free or for k, or the part's end.
fn scan<'a>(keys: &'a [u64], costs: &'a [u8], from: usize, end: usize, k: u64) -> usize
    requires { Part keys.now costs.now from end }
    ensures { Scans keys.now costs.now from end k result }
{
    for i in from..end {
        if costs[i] == 0 {
            return i;
        }
        if is_for(keys, costs, i, k) {
            return i;
        }
    }
    end
}

// A place where a scan stopped.
#[tactic(auto, unfolding(crate::specs::Entries::is_used))]
fn slot_at(costs: &[u8], i: usize) -> Slot
    requires { i < length costs.now }
    ensures { result ≡ slot_at costs.now i }
{
    if costs[i] == 0 {
        Slot::Free(i)
    } else {
        Slot::At(i)
    }
}

// A key's entry; else the free entry that is to be its own; else there is none left.
pub fn find<'a>(keys: &'a [u64], costs: &'a [u8], entries: usize, k: u64) -> Slot
    requires { Table keys.now costs.now entries }
    ensures { Finds keys.now costs.now entries k result }
{
    let first = home_of(entries, k);
    let upper = scan(keys, costs, first, entries, k);
    if upper < entries {
        return slot_at(costs, upper);
    }
    let lower = scan(keys, costs, 0, first, k);
    if lower < first {
        return slot_at(costs, lower);
    }
    Slot::Full
}

// A key's cost, new or another, at the place that was found for it.
pub fn store(keys: &mut [u64], costs: &mut [u8], entries: usize, at: usize, k: u64, cost: u8)
    requires table { Table keys.old costs.old entries }
    requires place { Place keys.old costs.old entries k at }
    requires cost_bound { cost ≤ 200 }
    ensures { Stores keys.old costs.old keys.new costs.new entries at k cost }
{
    keys[at] = k;
    costs[at] = cost + 1;
}

// The cost of a used entry, with no search for it.
#[tactic(auto, unfolding(crate::specs::Entries::cost_at, crate::specs::Entries::is_used))]
pub fn cost_at(costs: &[u8], at: usize) -> u8
    requires at_in_bounds { at < length costs.now }
    requires at_value { is_used costs.now at ≡ true }
    ensures { result ≡ cost_at costs.now at }
{
    costs[at] - 1
}
