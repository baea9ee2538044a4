// The local priority of a move (after freecell/solver.rs, `local_priority`, changed: NOTICE).
#![tactic(auto)]

ghost use Rattle.std.specs.Prelude.{◌≡◌};
ghost use Rattle.board.specs.Refusal.{answered};
ghost use Rattle.board.specs.Record.{shown, laid};
ghost use Rattle.board.specs.Inner.{Sound};
ghost use Rattle.moves.specs.Record.{move_asked};
ghost use Rattle.moves.specs.Play.{after_move};
ghost use Rattle.play.specs.Change.{Ready};
ghost use Rattle.priority.specs.Asked.{priority_by, priority_asked};
ghost use Rattle.generate.specs.Found.{way_of};
ghost use Rattle.features.specs.Features.{Bounded, features_of};
ghost use Rattle.priority.specs.Priority.{base_adds, base_takes, priority_adds, priority_takes, priority_key, priority_on};

use board::verdict::inspect;
use board::{Board, CODES, Refusal};
use features::Features;
use generate::Way;
use moves::Move;
use score::weights;

// The kind of a move.
fn way_of(m: Move) -> Way
    ensures { result ≡ way_of m }
{
    match m {
        Move::TableauToTableau { .. } => Way::ColumnToColumn,
        Move::TableauToFoundation { .. } => Way::ColumnToHome,
        Move::TableauToFreeCell { .. } => Way::ColumnToCell,
        Move::FreeCellToTableau { .. } => Way::CellToColumn,
        Move::FreeCellToFoundation { .. } => Way::CellToHome,
        Move::FoundationToTableau { .. } => Way::HomeToColumn,
    }
}

fn base_adds(way: Way) -> usize
    ensures { result ≡ base_adds way }
{
    match way {
        Way::ColumnToColumn => weights::PRIORITY_BASE_TABLEAU_TO_TABLEAU,
        Way::ColumnToHome | Way::CellToHome => weights::PRIORITY_BASE_TO_FOUNDATION,
        Way::CellToColumn => weights::PRIORITY_BASE_FREE_TO_TABLEAU,
        Way::ColumnToCell | Way::HomeToColumn => 0,
    }
}

fn base_takes(way: Way) -> usize
    ensures { result ≡ base_takes way }
{
    match way {
        Way::ColumnToCell => weights::PRIORITY_BASE_TABLEAU_TO_FREE,
        Way::HomeToColumn => weights::PRIORITY_BASE_FROM_FOUNDATION,
        Way::ColumnToColumn | Way::ColumnToHome | Way::CellToColumn | Way::CellToHome => 0,
    }
}

// What adds to a priority.
#[tactic(auto, using(crate::proofs::Sizes::base_adds_most))]
fn priority_adds(way: Way, before: Features, after: Features) -> usize
    requires bounded { Bounded before }
    requires bounded_2 { Bounded after }
    ensures { result ≡ priority_adds way before after }
{
    let base = base_adds(way);
    let home = after.home * weights::PRIORITY_FOUNDATION_GAIN_WEIGHT;
    let options = after.immediate * weights::PRIORITY_OPTIONS_GAIN_WEIGHT;
    let empty = after.empty * weights::PRIORITY_EMPTY_COL_GAIN_WEIGHT;
    let used = after.used * weights::PRIORITY_FREE_FREED_WEIGHT;
    let run = after.longest * weights::PRIORITY_RUN_GAIN_WEIGHT;
    let low = before.blocked * weights::PRIORITY_LOW_UNBLOCK_WEIGHT;
    let ahead = after.immediate * weights::LOOKAHEAD_FOUNDATION_OPTIONS_WEIGHT;
    let columns = after.empty * weights::LOOKAHEAD_EMPTY_COLUMNS_WEIGHT;
    base + home + options + empty + used + run + low + ahead + columns
}

// What takes away from it.
#[tactic(auto, using(crate::proofs::Sizes::base_takes_most))]
fn priority_takes(way: Way, before: Features, after: Features) -> usize
    requires bounded { Bounded before }
    requires bounded_2 { Bounded after }
    ensures { result ≡ priority_takes way before after }
{
    let base = base_takes(way);
    let home = before.home * weights::PRIORITY_FOUNDATION_GAIN_WEIGHT;
    let options = before.immediate * weights::PRIORITY_OPTIONS_GAIN_WEIGHT;
    let empty = before.empty * weights::PRIORITY_EMPTY_COL_GAIN_WEIGHT;
    let used = before.used * weights::PRIORITY_FREE_FREED_WEIGHT;
    let run = before.longest * weights::PRIORITY_RUN_GAIN_WEIGHT;
    let low = after.blocked * weights::PRIORITY_LOW_UNBLOCK_WEIGHT;
    let ahead = after.used * weights::LOOKAHEAD_FREE_USED_PENALTY;
    let blocked = after.blocked * weights::LOOKAHEAD_LOW_BLOCKED_PENALTY;
    base + home + options + empty + used + run + low + ahead + blocked
}

// A priority raised to a natural number.
fn priority_key(way: Way, before: Features, after: Features) -> usize
    requires bounded { Bounded before }
    requires bounded_2 { Bounded after }
    ensures { result ≡ priority_key way before after }
{
    let raised = priority_adds(way, before, after) + 157566;
    raised - priority_takes(way, before, after)
}

// The features of the board after a move that can be made; the move is made on a copy.
pub fn features_after<'a>(
    cells: &'a [u8; 4],
    foundation: &'a [u8; 4],
    counts: &'a [u8; 8],
    tableau: &'a [u8; CODES],
    m: Move,
) -> Features
    requires { Ready (laid cells.now foundation.now counts.now tableau.now) m }
    ensures value { result ≡ features_of (after_move (shown (laid cells.now foundation.now counts.now tableau.now)) m) }
    ensures bounded { Bounded result }
{
    let mut then_cells = *cells;
    let mut then_foundation = *foundation;
    let mut then_counts = *counts;
    let mut then_tableau = *tableau;
    play::apply_to(
        m,
        &mut then_cells,
        &mut then_foundation,
        &mut then_counts,
        &mut then_tableau,
    );
    features::compute_features(&then_cells, &then_foundation, &then_counts, &then_tableau)
}

// The raised priority of a move that can be made.
pub fn key_at<'a>(
    cells: &'a [u8; 4],
    foundation: &'a [u8; 4],
    counts: &'a [u8; 8],
    tableau: &'a [u8; CODES],
    before: Features,
    m: Move,
) -> usize
    requires ready { Ready (laid cells.now foundation.now counts.now tableau.now) m }
    requires before_value { before ≡ features_of (shown (laid cells.now foundation.now counts.now tableau.now)) }
    ensures { result ≡ priority_key (way_of m) (features_of (shown (laid cells.now foundation.now counts.now tableau.now))) (features_of (after_move (shown (laid cells.now foundation.now counts.now tableau.now)) m)) }
{
    let after = features_after(cells, foundation, counts, tableau, m);
    priority_key(way_of(m), before, after)
}

// The local priority of a move that can be made.
fn local_priority<'a>(
    cells: &'a [u8; 4],
    foundation: &'a [u8; 4],
    counts: &'a [u8; 8],
    tableau: &'a [u8; CODES],
    m: Move,
) -> i64
    requires { Ready (laid cells.now foundation.now counts.now tableau.now) m }
    ensures { result ≡ priority_on (shown (laid cells.now foundation.now counts.now tableau.now)) m }
{
    let before = features::compute_features(cells, foundation, counts, tableau);
    let after = features_after(cells, foundation, counts, tableau, m);
    let way = way_of(m);
    score::scores::signed(
        priority_adds(way, before, after),
        priority_takes(way, before, after),
    )
}

// 30 and 33 to 40 as one move is refused, or the local priority of a move, on a well formed board.
pub fn priority_at<'a>(
    cells: &'a [u8; 4],
    foundation: &'a [u8; 4],
    counts: &'a [u8; 8],
    tableau: &'a [u8; CODES],
    bytes: &[u8],
) -> Result<i64, Refusal>
    requires { Sound (laid cells.now foundation.now counts.now tableau.now) }
    ensures { answered result ≡ priority_by (shown (laid cells.now foundation.now counts.now tableau.now)) (move_asked bytes.now) }
{
    let Some(m) = moves::decode(bytes) else {
        return Err(Refusal::OutOfRange);
    };
    play::rule::ruled_at(cells, foundation, counts, tableau, m)?;
    Ok(local_priority(cells, foundation, counts, tableau, m))
}

// 12 to 15, 30 and 33 to 40 as one move is refused, or the local priority of a move.
pub fn priority_of(b: Board, bytes: &[u8]) -> Result<i64, Refusal>
    ensures { answered result ≡ priority_asked b bytes.now }
{
    inspect(&b.cells, &b.foundation, &b.counts, &b.tableau)?;
    priority_at(&b.cells, &b.foundation, &b.counts, &b.tableau, bytes)
}
