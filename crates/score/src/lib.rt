// Features of a board told, the two scores made of them, and the progress token (after freecell/solver.rs, changed: NOTICE).
#![tactic(auto)]

ghost use Rattle.std.specs.Prelude.{◌≡◌};
ghost use Rattle.board.specs.Refusal.{answered};
ghost use Rattle.score.specs.Asked.{features_asked, heuristic_asked, progress_asked, Writes};

use board::verdict::inspect;
use board::{Board, Refusal};
use features::Features;

pub mod scores;
pub mod token;
pub mod weights;

// 12 to 15, or the features of a board.
pub fn features_of(b: Board) -> Result<Features, Refusal>
    ensures { answered result ≡ features_asked b }
{
    inspect(&b.cells, &b.foundation, &b.counts, &b.tableau)?;
    let f = features::compute_features(&b.cells, &b.foundation, &b.counts, &b.tableau);
    Ok(f)
}

// 12 to 15, or the heuristic of a board.
pub fn heuristic_of(b: Board) -> Result<i64, Refusal>
    ensures { answered result ≡ heuristic_asked b }
{
    match features_of(b) {
        Ok(f) => Ok(scores::heuristic_cost(f)),
        Err(why) => Err(why),
    }
}

// 12 to 15, or the progress score of a board.
pub fn progress_of(b: Board) -> Result<i64, Refusal>
    ensures { answered result ≡ progress_asked b }
{
    match features_of(b) {
        Ok(f) => Ok(scores::progress_score(f)),
        Err(why) => Err(why),
    }
}

// 12 to 15, 21, or the token of a board; answers how many bytes it has.
pub fn progress_token(b: Board, out: &mut [u8]) -> Result<usize, Refusal>
    ensures { Writes b out.old out.new result }
{
    match features_of(b) {
        Ok(f) => {
            if out.len() < 32 {
                return Err(Refusal::LittleRoom);
            }
            let written = token::token_at(f, out);
            Ok(written)
        }
        Err(why) => Err(why),
    }
}
