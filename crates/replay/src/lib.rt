// One move from its record, and a list of them (after freecell/board.rs, `FreeCellMove::apply`, changed: NOTICE).
#![tactic(auto)]

ghost use Rattle.std.specs.Prelude.{◌≡◌, true, ◌%◌, length};
ghost use Rattle.board.specs.Refusal.{answered};
ghost use Rattle.board.specs.Record.{shown, laid};
ghost use Rattle.board.specs.Inner.{Sound};
ghost use Rattle.moves.specs.Move.{sayable};
ghost use Rattle.moves.specs.Causes.{played};
ghost use Rattle.replay.specs.Step.{recorded, stepped, move_made};
ghost use Rattle.replay.specs.Line.{line_from, records_in, replayed, is_line};
ghost use Rattle.replay.specs.Handed.{Moves, Ends};

use board::verdict::inspect;
use board::{Board, CODES, Refusal};
use moves::{LIST_ROOM, Move};

// The board at the end, or before the first bad move, and how many moves were played: the place of that move. A refusal has all
// three, so that no Result says it more plainly.
#[derive(Clone, Copy)]
pub struct Replayed {
    pub said: Result<(), Refusal>,
    pub moves: usize,
    pub board: Board,
}

// The same beside a board that lies in four arrays.
#[derive(Clone, Copy)]
pub struct Stopped {
    pub said: Result<(), Refusal>,
    pub moves: usize,
}

// 30, 33 to 40, or the move is made, on a board that lies in four arrays; a refusal leaves them as they were.
fn make(
    m: Move,
    cells: &mut [u8; 4],
    foundation: &mut [u8; 4],
    counts: &mut [u8; 8],
    tableau: &mut [u8; CODES],
) -> Result<(), Refusal>
    requires sound { Sound (laid cells.old foundation.old counts.old tableau.old) }
    requires m_value { sayable m ≡ true }
    ensures moves { Moves (laid cells.old foundation.old counts.old tableau.old) (recorded (played (shown (laid cells.old foundation.old counts.old tableau.old)) m)) result (laid cells.new foundation.new counts.new tableau.new) }
    ensures sound_2 { Sound (laid cells.new foundation.new counts.new tableau.new) }
{
    play::rule::ruled_at(cells, foundation, counts, tableau, m)?;
    play::apply_to(m, cells, foundation, counts, tableau);
    Ok(())
}

// 30, 33 to 40, or the move of a record is made, on a well formed board.
pub fn apply_record_to(
    bytes: &[u8],
    cells: &mut [u8; 4],
    foundation: &mut [u8; 4],
    counts: &mut [u8; 8],
    tableau: &mut [u8; CODES],
) -> Result<(), Refusal>
    requires { Sound (laid cells.old foundation.old counts.old tableau.old) }
    ensures moves { Moves (laid cells.old foundation.old counts.old tableau.old) (stepped (laid cells.old foundation.old counts.old tableau.old) bytes.now) result (laid cells.new foundation.new counts.new tableau.new) }
    ensures sound { Sound (laid cells.new foundation.new counts.new tableau.new) }
{
    match moves::decode(bytes) {
        Some(m) => make(m, cells, foundation, counts, tableau),
        None => Err(Refusal::OutOfRange),
    }
}

// The board after it, and the given board stays as it is.
pub fn apply_record_at(b: Board, bytes: &[u8]) -> Result<Board, Refusal>
    requires { Sound b }
    ensures { answered result ≡ stepped b bytes.now }
{
    let mut cells = b.cells;
    let mut foundation = b.foundation;
    let mut counts = b.counts;
    let mut tableau = b.tableau;
    apply_record_to(
        bytes,
        &mut cells,
        &mut foundation,
        &mut counts,
        &mut tableau,
    )?;
    Ok(Board {
        cells,
        foundation,
        counts,
        tableau,
    })
}

// 12 to 15, 30, 33 to 40, or the board after the move of a record.
pub fn apply_record(b: Board, bytes: &[u8]) -> Result<Board, Refusal>
    ensures { answered result ≡ move_made b bytes.now }
{
    inspect(&b.cells, &b.foundation, &b.counts, &b.tableau)?;
    apply_record_at(b, bytes)
}

// The records of a list one after the other, on a well formed board.
pub fn replay_to(
    bytes: &[u8],
    cells: &mut [u8; 4],
    foundation: &mut [u8; 4],
    counts: &mut [u8; 8],
    tableau: &mut [u8; CODES],
) -> Stopped
    requires sound { Sound (laid cells.old foundation.old counts.old tableau.old) }
    requires bytes_len { length bytes.now % 5 ≡ 0 }
    ensures ends { Ends (line_from (laid cells.old foundation.old counts.old tableau.old) (records_in bytes.now)) (record { said = result.said; moves = result.moves; board = laid cells.new foundation.new counts.new tableau.new }) }
    ensures sound_2 { Sound (laid cells.new foundation.new counts.new tableau.new) }
{
    let all = bytes.len() / 5;
    for moves in 0..all {
        let at = moves * 5;
        let end = at + 5;
        let said = apply_record_to(&bytes[at..end], cells, foundation, counts, tableau);
        if let Err(why) = said {
            return Stopped {
                said: Err(why),
                moves,
            };
        }
    }
    Stopped {
        said: Ok(()),
        moves: all,
    }
}

// The same on a board by value.
pub fn replay_at(b: Board, bytes: &[u8]) -> Replayed
    requires sound { Sound b }
    requires bytes_len { length bytes.now % 5 ≡ 0 }
    ensures { Ends (line_from b (records_in bytes.now)) result }
{
    let mut cells = b.cells;
    let mut foundation = b.foundation;
    let mut counts = b.counts;
    let mut tableau = b.tableau;
    let stopped = replay_to(
        bytes,
        &mut cells,
        &mut foundation,
        &mut counts,
        &mut tableau,
    );
    let board = Board {
        cells,
        foundation,
        counts,
        tableau,
    };
    let said = stopped.said;
    let moves = stopped.moves;
    Replayed { said, moves, board }
}

// At most 200 records, and nothing after them.
pub fn is_line(list: &[u8]) -> bool
    ensures { result ≡ is_line list.now }
{
    let n = list.len();
    if LIST_ROOM < n {
        return false;
    }
    let over = n % 5;
    over == 0
}

// 12 to 15, 31, the number of the first bad move, or the board after all of them.
pub fn replay(b: Board, bytes: &[u8]) -> Replayed
    ensures { Ends (replayed b bytes.now) result }
{
    if let Err(why) = inspect(&b.cells, &b.foundation, &b.counts, &b.tableau) {
        return Replayed {
            said: Err(why),
            moves: 0,
            board: b,
        };
    }
    if is_line(bytes) {
        return replay_at(b, bytes);
    }
    Replayed {
        said: Err(Refusal::WrongList),
        moves: 0,
        board: b,
    }
}
