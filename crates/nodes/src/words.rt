// The three words of a node, read and written (after freecell/solver.rs, `FcSearchNode`, changed: NOTICE).
ghost use Rattle.std.specs.Prelude.{◌≡◌, true, ◌∷◌, [], ◌+◌, ◌*◌, ◌<◌, ◌≤◌, length};
ghost use Rattle.base.specs.Answer.{given_or};
ghost use Rattle.moves.specs.Move.{sayable, count};
ghost use Rattle.moves.specs.Record.{move_asked};
ghost use Rattle.nodes.specs.Step.{Small, step_of, step_word, record_in, cost_in, parent_at, step_at, slot_at, cost_at, Puts, Added};

use moves::Move;

// The number of a node's parent.
#[tactic(auto, unfolding(crate::specs::Step::parent_at))]
pub fn parent_of(nodes: &[u32], i: usize) -> usize
    requires { (i + 1) * 3 ≤ length nodes.now }
    ensures { result ≡ parent_at nodes.now i }
{
    nodes[i * 3] as usize
}

// A node's step.
#[tactic(auto, unfolding(crate::specs::Step::step_at))]
pub fn step_of(nodes: &[u32], i: usize) -> u32
    requires { (i + 1) * 3 ≤ length nodes.now }
    ensures { result ≡ step_at nodes.now i }
{
    nodes[i * 3 + 1]
}

// A node's entry in the table of costs.
#[tactic(auto, unfolding(crate::specs::Step::slot_at))]
pub fn slot_of(nodes: &[u32], i: usize) -> usize
    requires { (i + 1) * 3 ≤ length nodes.now }
    ensures { result ≡ slot_at nodes.now i }
{
    nodes[i * 3 + 2] as usize
}

// A step's cost.
#[tactic(auto, unfolding(crate::specs::Step::cost_in))]
pub fn cost_in(step: u32) -> usize
    ensures { result ≡ cost_in step }
{
    (step % 256) as usize
}

// A node's cost.
#[tactic(auto, unfolding(crate::specs::Step::cost_at))]
pub fn cost_of(nodes: &[u32], i: usize) -> usize
    requires { (i + 1) * 3 ≤ length nodes.now }
    ensures { result ≡ cost_at nodes.now i }
{
    cost_in(step_of(nodes, i))
}

// Six digits as one number.
#[tactic(auto, unfolding(crate::specs::Step::step_of))]
fn pack(kind: usize, from: usize, to: usize, count: usize, code: usize, cost: usize) -> u32
    requires small { Small (kind ∷ from ∷ to ∷ count ∷ code ∷ []) }
    requires cost_bound { cost < 256 }
    ensures { result ≡ step_of (kind ∷ from ∷ to ∷ count ∷ code ∷ []) cost }
{
    let sources = kind * 8 + from;
    let targets = sources * 8 + to;
    let counts = targets * 16 + count;
    let codes = counts * 256 + code;
    let word = codes * 256 + cost;
    word as u32
}

// The step of a move that leads to a cost.
fn step_word(m: Move, cost: usize) -> u32
    requires m_value { sayable m ≡ true }
    requires m_bound { count m < 16 }
    requires cost_bound { cost < 256 }
    ensures { result ≡ step_word m cost }
{
    let bytes = moves::encode(m);
    let kind = usize::from(bytes[0]);
    let from = usize::from(bytes[1]);
    let to = usize::from(bytes[2]);
    let count = usize::from(bytes[3]);
    let code = usize::from(bytes[4]);
    pack(kind, from, to, count, code, cost)
}

// The record of a step's move.
#[tactic(auto, unfolding(crate::specs::Step::record_in))]
fn record_in(word: u32) -> [u8; 5]
    ensures { result ≡ record_in word }
{
    let kind = word / 67108864;
    let from = word / 8388608 % 8;
    let to = word / 1048576 % 8;
    let count = word / 65536 % 16;
    let code = word / 256 % 256;
    [kind as u8, from as u8, to as u8, count as u8, code as u8]
}

// A step's move.
pub fn move_in(word: u32) -> Option<Move>
    ensures { given_or 30 result ≡ move_asked (record_in word) }
{
    moves::decode(&record_in(word))
}

// The three words of node i.
fn put(nodes: &mut [u32], i: usize, parent: usize, step: u32, slot: usize)
    requires i_in_bounds { (i + 1) * 3 ≤ length nodes.old }
    requires parent_bound { parent < 4294967296 }
    requires slot_bound { slot < 4294967296 }
    ensures { Puts nodes.old nodes.new i parent step slot }
{
    let at = i * 3;
    let words = [parent as u32, step, slot as u32];
    nodes[at..at + 3].copy_from_slice(&words);
}

// The root: node 0, with no parent and no cost.
pub fn set_root(nodes: &mut [u32], slot: usize)
    requires in_bounds { 3 ≤ length nodes.old }
    requires slot_bound { slot < 4294967296 }
    ensures { Puts nodes.old nodes.new 0 0 0 slot }
{
    put(nodes, 0, 0, 0, slot);
}

// Node n: a child of an older node by a first move.
pub fn add_node(nodes: &mut [u32], n: usize, parent: usize, m: Move, cost: usize, slot: usize)
    requires n_in_bounds { (n + 1) * 3 ≤ length nodes.old }
    requires parent_bound { parent < 4294967296 }
    requires m_value { sayable m ≡ true }
    requires m_bound { count m < 16 }
    requires cost_bound { cost < 256 }
    requires slot_bound { slot < 4294967296 }
    ensures { Added nodes.old nodes.new n parent m cost slot }
{
    let step = step_word(m, cost);
    put(nodes, n, parent, step, slot);
}
