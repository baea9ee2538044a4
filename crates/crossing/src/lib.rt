// What crosses to C and back, below the functions that C calls: boards as bytes (wire), what is handed back in lent room (hand), what is
// told behind pointers (tell).
#![tactic(auto)]

pub mod hand;
pub mod tell;
pub mod wire;
