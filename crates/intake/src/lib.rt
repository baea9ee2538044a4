// Boards from outside: reading an image, dealing a deck, dealing the hand of a number.
#![tactic(auto)]

pub mod deal;
pub mod image;
pub mod number;
