// The two scores of a board's features (after freecell/solver.rs, `heuristic_cost` and `progress_score`, changed: NOTICE).
ghost use Rattle.std.specs.Prelude.{◌≡◌, ◌≤◌};
ghost use Rattle.std.proofs.Math.IntN.{sub_ℕ};
ghost use Rattle.features.specs.Features.{Bounded};
ghost use Rattle.score.specs.Scores.{heuristic_adds, heuristic_takes, heuristic, heuristic_key, progress_adds, progress_takes, progress, progress_key};

use crate::weights;
use features::Features;

// One number less another, which may be the greater.
pub fn signed(adds: usize, takes: usize) -> i64
    requires adds_bound { adds ≤ 1000000 }
    requires takes_bound { takes ≤ 1000000 }
    ensures { result ≡ sub_ℕ adds takes }
{
    adds as i64 - takes as i64
}

fn heuristic_adds(f: Features) -> usize
    requires { Bounded f }
    ensures { result ≡ heuristic_adds f }
{
    let remaining = (52 - f.home) * weights::HEURISTIC_FOUNDATION_REMAINING_WEIGHT;
    let used = f.used * weights::HEURISTIC_FREE_USED_PENALTY;
    let blocked = f.blocked * weights::HEURISTIC_LOW_BLOCKED_PENALTY;
    let imbalance = f.imbalance * weights::HEURISTIC_FOUNDATION_IMBALANCE_PENALTY;
    remaining + used + blocked + imbalance
}

fn heuristic_takes(f: Features) -> usize
    requires { Bounded f }
    ensures { result ≡ heuristic_takes f }
{
    let empty = f.empty * weights::HEURISTIC_EMPTY_TABLEAU_BONUS;
    let longest = f.longest * weights::HEURISTIC_LONGEST_RUN_BONUS;
    let immediate = f.immediate * weights::HEURISTIC_IMMEDIATE_FOUNDATION_BONUS;
    empty + longest + immediate
}

pub fn heuristic_cost(f: Features) -> i64
    requires { Bounded f }
    ensures { result ≡ heuristic f }
{
    signed(heuristic_adds(f), heuristic_takes(f))
}

// The heuristic raised to a natural number.
pub fn heuristic_key(f: Features) -> usize
    requires { Bounded f }
    ensures { result ≡ heuristic_key f }
{
    let raised = heuristic_adds(f) + 239;
    raised - heuristic_takes(f)
}

fn progress_adds(f: Features) -> usize
    requires { Bounded f }
    ensures { result ≡ progress_adds f }
{
    let home = f.home * weights::PROGRESS_FOUNDATION_WEIGHT;
    let immediate = f.immediate * weights::PROGRESS_IMMEDIATE_FOUNDATION_WEIGHT;
    let empty = f.empty * weights::PROGRESS_EMPTY_TABLEAU_BONUS;
    let longest = f.longest * weights::PROGRESS_LONGEST_RUN_BONUS;
    home + immediate + empty + longest
}

fn progress_takes(f: Features) -> usize
    requires { Bounded f }
    ensures { result ≡ progress_takes f }
{
    let used = f.used * weights::PROGRESS_FREE_USED_PENALTY;
    let blocked = f.blocked * weights::PROGRESS_LOW_BLOCKED_PENALTY;
    used + blocked
}

pub fn progress_score(f: Features) -> i64
    requires { Bounded f }
    ensures { result ≡ progress f }
{
    signed(progress_adds(f), progress_takes(f))
}

// The progress score raised to a natural number.
pub fn progress_key(f: Features) -> usize
    requires { Bounded f }
    ensures { result ≡ progress_key f }
{
    let raised = progress_adds(f) + 12152;
    raised - progress_takes(f)
}
