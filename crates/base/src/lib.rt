// What knows no cards: numbers in order, lent memory cleared and written.
#![tactic(auto)]

pub mod blank;
pub mod order;
pub mod put;
