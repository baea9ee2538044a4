// The key of a waiting node: by cost + heuristic, then by heuristic, then by number, in one word (after freecell/solver.rs,
// `is_higher`, changed: NOTICE).
ghost use Rattle.std.specs.Prelude.{◌≡◌, ◌%◌, ◌<◌};
ghost use Rattle.frontier.specs.Packing.{packed};

// 17 bits for the sum, 15 for the heuristic, 32 for the number.
#[tactic(auto, unfolding(crate::specs::Packing::packed))]
pub fn pack(sum: usize, hope: usize, number: usize) -> u64
    requires sum_bound { sum < 131072 }
    requires hope_bound { hope < 32768 }
    requires number_bound { number < 4294967296 }
    ensures { result ≡ packed sum hope number }
{
    ((sum * 32768 + hope) * 4294967296 + number) as u64
}

// The number of the node that a key is for.
pub fn number_of(key: u64) -> usize
    ensures { result ≡ key % 4294967296 }
{
    (key % 4294967296) as usize
}
