// The weights, by the Rust's names and in its order (after freecell/weights.rs, changed: NOTICE); of those that the Rust has
// below 0, the size.

// One step ahead.
pub const LOOKAHEAD_FOUNDATION_OPTIONS_WEIGHT: usize = 90;

pub const LOOKAHEAD_EMPTY_COLUMNS_WEIGHT: usize = 25;

pub const LOOKAHEAD_FREE_USED_PENALTY: usize = 12;

pub const LOOKAHEAD_LOW_BLOCKED_PENALTY: usize = 8;

// Local priority: the base of a kind of move.
pub const PRIORITY_BASE_TO_FOUNDATION: usize = 900;

pub const PRIORITY_BASE_FREE_TO_TABLEAU: usize = 260;

pub const PRIORITY_BASE_TABLEAU_TO_TABLEAU: usize = 220;

// Below 0 in the Rust: these two are taken away.
pub const PRIORITY_BASE_TABLEAU_TO_FREE: usize = 60;

pub const PRIORITY_BASE_FROM_FOUNDATION: usize = 250;

// Local priority: gains from before to after.
pub const PRIORITY_FOUNDATION_GAIN_WEIGHT: usize = 1200;

pub const PRIORITY_OPTIONS_GAIN_WEIGHT: usize = 180;

pub const PRIORITY_EMPTY_COL_GAIN_WEIGHT: usize = 220;

pub const PRIORITY_FREE_FREED_WEIGHT: usize = 100;

pub const PRIORITY_RUN_GAIN_WEIGHT: usize = 20;

pub const PRIORITY_LOW_UNBLOCK_WEIGHT: usize = 160;

// Heuristic.
pub const HEURISTIC_FOUNDATION_REMAINING_WEIGHT: usize = 120;

pub const HEURISTIC_FREE_USED_PENALTY: usize = 14;

pub const HEURISTIC_LOW_BLOCKED_PENALTY: usize = 18;

pub const HEURISTIC_FOUNDATION_IMBALANCE_PENALTY: usize = 12;

pub const HEURISTIC_EMPTY_TABLEAU_BONUS: usize = 10;

pub const HEURISTIC_LONGEST_RUN_BONUS: usize = 3;

pub const HEURISTIC_IMMEDIATE_FOUNDATION_BONUS: usize = 30;

// Progress score.
pub const PROGRESS_FOUNDATION_WEIGHT: usize = 2500;

pub const PROGRESS_IMMEDIATE_FOUNDATION_WEIGHT: usize = 120;

pub const PROGRESS_EMPTY_TABLEAU_BONUS: usize = 90;

pub const PROGRESS_LONGEST_RUN_BONUS: usize = 25;

pub const PROGRESS_FREE_USED_PENALTY: usize = 35;

pub const PROGRESS_LOW_BLOCKED_PENALTY: usize = 22;

// From so many cards home on, unsafe moves home are tried.
pub const ENDGAME_UNSAFE_FOUNDATION_THRESHOLD: usize = 40;
