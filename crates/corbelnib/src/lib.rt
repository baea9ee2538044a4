// The judge for a controller program in C: numbers and lent memory alone. A board is 432 bytes (src/wire.rt); 0 is done, any
// other number SCOPE.md's. A refusal changes nothing lent, but for a bad move in a replay. C calls it by crates/corbelnib_c.
#![tactic(auto)]

ghost use Rattle.std.specs.Prelude.{◌≡◌, ℕ, Ok};
ghost use Rattle.base.specs.Answer.{given, unless};
ghost use Rattle.replay.specs.Line.{is_line, line_from, records_in};
ghost use Rattle.board.specs.Verdict.{after};
ghost use Rattle.board.specs.Record.{examined, shown};
ghost use Rattle.board.specs.Refusal.{answered};
ghost use Rattle.crossing.specs.Crossing.{left};
ghost use Rattle.crossing.specs.Lists.{list_left, way_asked, found_by};
ghost use Rattle.crossing.specs.Papers.{with_room};
ghost use Rattle.crossing.specs.Values.{value_left};
ghost use Rattle.crossing.specs.Inner.{ended};
ghost use Rattle.season.specs.Season.{lent_of};
ghost use Rattle.corbelnib.specs.Calls.{promise, asks, runs, lends};
ghost use Rattle.corbelnib.specs.Calls as call;

use board::verdict::inspect;
use board::{Board, Refusal};
use crossing::{hand, tell, wire};
use replay::Replayed;
use safe::Chained;

// 12 to 15, or 0 for a well-formed board.
pub fn corbelnib_examine(board: &[u8]) -> u8
    ensures { result ≡ (promise call.examine board.now tt).number }
{
    match wire::lent(board) {
        Ok(b) => tell::verdict(board::examine(b)),
        Err(why) => board::number(why),
    }
}

// A board from its image: 10 to 15, 21.
#[tactic(auto, unfolding(crossing::specs::Boards::read_left))]
pub fn corbelnib_read(image: &[u8], board: &mut [u8]) -> u8
    ensures { left result board.new ≡ promise call.read image.now board.old }
{
    hand::board(intake::image::read(image), board)
}

// A board from a deck: 16, 13, 14, 21.
#[tactic(auto, unfolding(crossing::specs::Boards::deal_left))]
pub fn corbelnib_deal(deck: &[u8], board: &mut [u8]) -> u8
    ensures { left result board.new ≡ promise call.deal deck.now board.old }
{
    hand::board(intake::deal::deal(deck), board)
}

// The board of a hand's number: 41, 21.
#[tactic(auto, unfolding(crossing::specs::Boards::number_left))]
pub fn corbelnib_number(number: usize, board: &mut [u8]) -> u8
    ensures { left result board.new ≡ promise call.number number board.old }
{
    hand::board(intake::number::hand(number), board)
}

// The board after one move: 12 to 15, 30, 33 to 40, 21.
#[tactic(auto, unfolding(crossing::specs::Boards::move_left))]
pub fn corbelnib_move(board: &[u8], bytes: &[u8], after: &mut [u8]) -> u8
    ensures { left result after.new ≡ promise call.move (board.now, bytes.now) after.old }
{
    let moved = wire::lent(board).and_then(|b| replay::apply_record(b, bytes));
    hand::board(moved, after)
}

// A list of moves from a board: 12 to 15, 31, or where it ends.
fn replayed(b: Board, list: &[u8]) -> Result<Replayed, Refusal>
    ensures { ended result ≡ after (examined b) (unless (is_line list.now) 31 (given (line_from b (records_in list.now)))) }
{
    board::examine(b)?;
    if !replay::is_line(list) {
        return Err(Refusal::WrongList);
    }
    Ok(replay::replay_at(b, list))
}

// The board after a list of moves, and their number: 12 to 15, 31, 21; 30 and 33 to 40 tell the place of the bad move and hand
// back the board before it.
#[tactic(auto, unfolding(crossing::specs::Boards::replay_left))]
pub fn corbelnib_replay(board: &[u8], list: &[u8], after: &mut [u8], played: &mut usize) -> u8
    ensures { left result (after.new, played.new) ≡ promise call.replay (board.now, list.now) (after.old, played.old) }
{
    let end = wire::lent(board).and_then(|b| replayed(b, list));
    hand::line(end, after, played)
}

// The records of a line on paper, and their number: 12 to 15, 21, 31; 42 tells the place of the first wrong character, 30 and 33 to 40 that
// of the move.
pub fn corbelnib_read_line(board: &[u8], text: &[u8], list: &mut [u8], count: &mut usize) -> u8
    ensures { left result (list.new, count.new) ≡ promise call.read_line (board.now, text.now) (list.old, count.old) }
{
    match wire::lent(board) {
        Ok(b) => tell::line(reading::read_line(b, text, list), count),
        Err(why) => board::number(why),
    }
}

// The text of a list of moves, and the number of its bytes: 12 to 15, 31, 21; 30, 33 to 40 and 43 tell the place of the move.
pub fn corbelnib_write_line(board: &[u8], list: &[u8], text: &mut [u8], count: &mut usize) -> u8
    ensures { left result (text.new, count.new) ≡ promise call.write_line (board.now, list.now) (text.old, count.old) }
{
    match wire::lent(board) {
        Ok(b) => tell::line(writing::write_line(b, list, text), count),
        Err(why) => board::number(why),
    }
}

// The chain of safe moves as a line of moves that none stops.
fn unstopped(chain: Chained) -> Replayed
    ensures { result ≡ record { said = Ok tt; moves = chain.moves; board = chain.board } }
{
    Replayed {
        said: Ok(()),
        moves: chain.moves,
        board: chain.board,
    }
}

// The board after the chain of safe moves, and their number: 12 to 15, 21.
pub fn corbelnib_chain(board: &[u8], after: &mut [u8], moves: &mut usize) -> u8
    ensures { left result (after.new, moves.new) ≡ promise call.chain board.now (after.old, moves.old) }
{
    let chain = wire::lent(board).and_then(safe::safe_chain);
    hand::line(chain.map(unstopped), after, moves)
}

// The records of the allowed moves of a kind on a board: 12 to 15, 30, 21, or their number.
fn found(b: &Board, kind: u8, records: &mut [u8]) -> Result<usize, Refusal>
    ensures { (n : ℕ) → with_room records.new (value_left (answered result) n) ≡ list_left (after (examined b.now) (found_by (shown b.now) (way_asked kind))) records.old n }
{
    inspect(&b.cells, &b.foundation, &b.counts, &b.tableau)?;
    let way = tell::way_of(kind).ok_or(Refusal::OutOfRange)?;
    generators::find(*b, way, records)
}

// The records of the allowed moves of a kind, and their number: 12 to 15, 30, 21.
pub fn corbelnib_moves(board: &[u8], kind: u8, records: &mut [u8], count: &mut usize) -> u8
    ensures { left result (records.new, count.new) ≡ promise call.moves (board.now, kind) (records.old, count.old) }
{
    match wire::lent(board) {
        Ok(b) => tell::value(found(&b, kind, records), count),
        Err(why) => board::number(why),
    }
}

// The records of the candidates in order, and their number: 12 to 15, 21.
pub fn corbelnib_candidates(board: &[u8], records: &mut [u8], count: &mut usize) -> u8
    ensures { left result (records.new, count.new) ≡ promise call.candidates board.now (records.old, count.old) }
{
    match wire::lent(board) {
        Ok(b) => tell::value(ordered::candidates_of(b, records), count),
        Err(why) => board::number(why),
    }
}

// The token's text, and the number of its bytes: 12 to 15, 21.
pub fn corbelnib_token(board: &[u8], text: &mut [u8], count: &mut usize) -> u8
    ensures { left result (text.new, count.new) ≡ promise call.token board.now (text.old, count.old) }
{
    match wire::lent(board) {
        Ok(b) => tell::value(score::progress_token(b, text), count),
        Err(why) => board::number(why),
    }
}

// The priority of a move: 12 to 15, 30, 33 to 40.
#[tactic(auto, unfolding(crossing::specs::Values::priority_left))]
pub fn corbelnib_priority(board: &[u8], bytes: &[u8], priority: &mut i64) -> u8
    ensures { left result priority.new ≡ promise call.priority (board.now, bytes.now) priority.old }
{
    let answer = wire::lent(board).and_then(|b| priority::priority_of(b, bytes));
    tell::value(answer, priority)
}

// Heuristic and progress score: 12 to 15.
pub fn corbelnib_scores(board: &[u8], heuristic: &mut i64, progress: &mut i64) -> u8
    ensures { left result (heuristic.new, progress.new) ≡ promise call.scores board.now (heuristic.old, progress.old) }
{
    match wire::lent(board) {
        Ok(b) => {
            tell::value(score::heuristic_of(b), heuristic);
            tell::value(score::progress_of(b), progress)
        }
        Err(why) => board::number(why),
    }
}

// The signature: 12 to 15.
#[tactic(auto, unfolding(crossing::specs::Values::signature_left))]
pub fn corbelnib_signature(board: &[u8], signature: &mut u64) -> u8
    ensures { left result signature.new ≡ promise call.signature board.now signature.old }
{
    tell::value(
        wire::lent(board).and_then(signature::signature_of),
        signature,
    )
}

// The code of the card on top of a column, 255 for none: 12 to 15, 30.
#[tactic(auto, unfolding(crossing::specs::Questions::top_left))]
pub fn corbelnib_top(board: &[u8], column: usize, code: &mut u8) -> u8
    ensures { left result code.new ≡ promise call.top (board.now, column) code.old }
{
    let answer = wire::lent(board).and_then(|b| questions::top_of_tableau(b, column));
    tell::top(answer, code)
}

// The code of the card in a cell, 255 for none: 12 to 15, 30.
#[tactic(auto, unfolding(crossing::specs::Questions::cell_left))]
pub fn corbelnib_cell(board: &[u8], cell: usize, code: &mut u8) -> u8
    ensures { left result code.new ≡ promise call.cell (board.now, cell) code.old }
{
    let answer = wire::lent(board).and_then(|b| questions::free_cell(b, cell));
    tell::top(answer, code)
}

// How many cards of a suit are home: 12 to 15, 30.
#[tactic(auto, unfolding(crossing::specs::Questions::home_left))]
pub fn corbelnib_home(board: &[u8], suit: usize, count: &mut usize) -> u8
    ensures { left result count.new ≡ promise call.home (board.now, suit) count.old }
{
    let answer = wire::lent(board).and_then(|b| questions::foundation_count(b, suit));
    tell::value(answer, count)
}

// The most cards that may go to a column at once: 12 to 15, 30.
#[tactic(auto, unfolding(crossing::specs::Questions::most_left))]
pub fn corbelnib_most(board: &[u8], column: usize, count: &mut usize) -> u8
    ensures { left result count.new ≡ promise call.most (board.now, column) count.old }
{
    let answer = wire::lent(board).and_then(|b| rules::max_movable_cards(b, column));
    tell::value(answer, count)
}

// Whether the board is won: 12 to 15.
#[tactic(auto, unfolding(crossing::specs::Questions::won_left))]
pub fn corbelnib_won(board: &[u8], won: &mut u8) -> u8
    ensures { left result won.new ≡ promise call.won board.now won.old }
{
    tell::won(wire::lent(board).and_then(questions::is_win), won)
}

// The record of the first safe move, and whether there is one: 12 to 15, 21.
#[tactic(auto, unfolding(crossing::specs::Questions::safe_left, safe::specs::Asked::first_asked))]
pub fn corbelnib_safe(board: &[u8], bytes: &mut [u8], count: &mut usize) -> u8
    ensures { left result (bytes.new, count.new) ≡ promise call.safe board.now (bytes.old, count.old) }
{
    let answer = wire::lent(board).and_then(safe::first_safe_move);
    hand::safe_move(answer, bytes, count)
}

// The seven features: 12 to 15, 21.
#[tactic(auto, unfolding(crossing::specs::Values::features_left))]
pub fn corbelnib_features(board: &[u8], features: &mut [u64]) -> u8
    ensures { left result features.new ≡ promise call.features board.now features.old }
{
    hand::features(wire::lent(board).and_then(score::features_of), features)
}

// How many nodes lent parts of these lengths hold.
pub fn corbelnib_capacity(nodes: usize, heap: usize, keys: usize, costs: usize) -> usize
    ensures { result ≡ (promise call.capacity (nodes, (heap, (keys, costs))) tt).number }
{
    solver::capacity_of(nodes, heap, keys, costs)
}

// The search: 12 to 15, 20, 21, 22, or the answer's number with its pops and the number of moves in the list.
pub fn corbelnib_judge(
    board: &[u8],
    budget: usize,
    partial: u8,
    nodes: &mut [u32],
    heap: &mut [u64],
    keys: &mut [u64],
    costs: &mut [u8],
    list: &mut [u8],
    pops: &mut usize,
    moves: &mut usize,
) -> u8
    ensures { left result (lends nodes.new heap.new keys.new costs.new list.new pops.new moves.new) ≡ promise call.judge (asks board.now budget partial) (lends nodes.old heap.old keys.old costs.old list.old pops.old moves.old) }
{
    let b = match wire::lent(board) {
        Ok(b) => b,
        Err(why) => return board::number(why),
    };
    let allowed = partial != 0;
    match solver::solve(b, budget, allowed, nodes, heap, keys, costs, list) {
        Ok(judged) => {
            *pops = judged.pops;
            *moves = judged.moves;
            finish::number(Ok(judged.said))
        }
        Err(why) => finish::number(Err(why)),
    }
}

// The sheet over the hands of a run of numbers: 41, 20, 21, 22.
pub fn corbelnib_season(
    first: usize,
    last: usize,
    budget: usize,
    partial: u8,
    nodes: &mut [u32],
    heap: &mut [u64],
    keys: &mut [u64],
    costs: &mut [u8],
    sheet: &mut [u64],
) -> u8
    ensures { left result (lent_of nodes.new heap.new keys.new costs.new sheet.new) ≡ promise call.season (runs first last budget partial) (lent_of nodes.old heap.old keys.old costs.old sheet.old) }
{
    tell::verdict(season::season(
        first,
        last,
        budget,
        partial != 0,
        nodes,
        heap,
        keys,
        costs,
        sheet,
    ))
}

// The version of the library: 601 is 0.6.1.
pub fn corbelnib_version() -> u32
    ensures { result ≡ (promise call.version tt tt).number }
{
    601
}

// A sheet added to the first, where it stands: 47, 45, 44.
pub fn corbelnib_add(into: &mut [u64], other: &[u64]) -> u8
    ensures { left result into.new ≡ promise call.add other.now into.old }
{
    tell::verdict(totals::add(into, other))
}
