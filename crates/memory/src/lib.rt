// What the search counts beside the lent memory, and how its steps end (after freecell/solver.rs, changed: NOTICE).
#![tactic(auto)]

// Nodes born, nodes that wait, the best node and its raised progress score, and the pops.
#[derive(Clone, Copy)]
pub struct Counts {
    pub born: usize,
    pub waiting: usize,
    pub best: usize,
    pub progress: usize,
    pub pops: usize,
}

// How many nodes there is room for, and how many entries the table of costs has.
#[derive(Clone, Copy)]
pub struct Room {
    pub capacity: usize,
    pub entries: usize,
}

// A node was taken: the search goes on, or it is won by that node, or there was no room.
#[derive(Clone, Copy)]
pub enum Advance {
    Again(Counts),
    WonBy { node: usize, counts: Counts },
    OutOfNodes { pops: usize },
}

// How a search ended.
#[derive(Clone, Copy)]
pub enum Ended {
    Won { node: usize, counts: Counts },
    Limit(Counts),
    Exhausted(Counts),
    OutOfNodes { pops: usize },
}
