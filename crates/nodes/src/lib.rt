// The nodes of the search in lent memory: three words each (after freecell/solver.rs, `FcSearchNode`, changed: NOTICE).
#![tactic(auto)]

pub mod path;
pub mod words;
