// Nodes in lent memory that point to their parents: each has a count of what points to it, and a node that nothing points to is
// given back.
#![tactic(auto)]

ghost use Rattle.std.specs.Prelude.{◌≡◌, ◌+◌, ◌*◌, ◌-◌, ◌<◌, ◌≤◌, length};
ghost use Rattle.kin.specs.Places.{parent_at, refs_at, counting, Pending, keeps, given_back, next_place};

// The place of a node's parent.
#[tactic(auto, unfolding(crate::specs::Places::parent_at))]
pub fn parent_of(words: &[u32], i: usize) -> usize
    requires { (i + 1) * 5 ≤ length words.now }
    ensures { result ≡ parent_at words.now i }
{
    let at = i * 5;
    words[at] as usize
}

// A place's count.
#[tactic(auto, unfolding(crate::specs::Places::refs_at))]
pub fn refs_of(words: &[u32], i: usize) -> u32
    requires { (i + 1) * 5 ≤ length words.now }
    ensures { result ≡ refs_at words.now i }
{
    let first = i * 5;
    let at = first + 4;
    words[at]
}

// Another count for a place.
#[tactic(auto, unfolding(crate::specs::Places::counting))]
fn put_refs(words: &mut [u32], i: usize, refs: u32)
    requires { (i + 1) * 5 ≤ length words.old }
    ensures { words.new ≡ counting words.old i refs }
{
    let first = i * 5;
    let at = first + 4;
    words[at] = refs;
}

// A place is pointed to once more.
pub fn hold(words: &mut [u32], i: usize)
    requires i_in_bounds { (i + 1) * 5 ≤ length words.old }
    requires i_bound { refs_at words.old i < 4294967295 }
    ensures { words.new ≡ counting words.old i (refs_at words.old i + 1) }
{
    let refs = refs_of(words, i);
    let more = refs + 1;
    put_refs(words, i, more);
}

// A place is pointed to once less. If nothing else points to it, it goes on the stack of free places, and its parent is pointed to
// once less. How many places are held then.
pub fn let_go(
    words: &mut [u32],
    slots: &mut [u32],
    capacity: usize,
    fresh: usize,
    living: usize,
    i: usize,
) -> usize
    requires { Pending capacity fresh words.old slots.old living i }
    ensures { keeps words.new slots.new result ≡ given_back capacity fresh words.old slots.old living i }
{
    let mut at = i;
    let mut left = living;
    let mut refs = refs_of(words, at);
    // no `for`: parent after parent, for as long as nothing else points there
    while refs == 1 {
        put_refs(words, at, 0);
        left -= 1;
        let free = fresh - left;
        let top = capacity - free;
        let place = at as u32;
        slots[top] = place;
        at = parent_of(words, at);
        refs = refs_of(words, at);
    }
    let less = refs - 1;
    put_refs(words, at, less);
    left
}

// The place of a new node: the top of the stack, or the first place that was never used.
#[tactic(auto, unfolding(crate::specs::Places::next_place))]
pub fn take(slots: &[u32], capacity: usize, fresh: usize, living: usize) -> usize
    requires living_le_fresh { living ≤ fresh }
    requires fresh_le_capacity { fresh ≤ capacity }
    requires capacity_in_bounds { capacity ≤ length slots.now }
    ensures { result ≡ next_place slots.now capacity fresh living }
{
    if living < fresh {
        let free = fresh - living;
        let top = capacity - free;
        return slots[top] as usize;
    }
    fresh
}
