// A list of moves written as players write it: each on the board that those before it leave, one space between two.
#![tactic(auto)]

ghost use Rattle.std.specs.Prelude.{◌≡◌, true, ℕ, ◌+◌, ◌≤◌, ◌%◌, length};
ghost use Rattle.base.specs.Put.{Puts};
ghost use Rattle.board.specs.Record.{shown, laid};
ghost use Rattle.board.specs.Inner.{Sound};
ghost use Rattle.moves.specs.Move.{sayable};
ghost use Rattle.moves.specs.Record.{move_said};
ghost use Rattle.replay.specs.Line.{line_from, records_in, is_line};
ghost use Rattle.sense.specs.Meant.{writable, jot_of};
ghost use Rattle.writing.specs.Lines.{text_of};
ghost use Rattle.writing.specs.Asked.{moves_in, Writes};
ghost use Rattle.writing.specs.Inner.{gap, next_text, Next, Notes, Whole, Unwritable, Stops};

use base::put::put_bytes;
use board::verdict::inspect;
use board::{Board, CODES, Refusal};
use moves::{MOST_MOVES, Move};
use notation::put::put_jot;
use replay::{Stopped, is_line, replay_to};
use sense::LineError;
use sense::noted::jot_at;

// Room for any line: four signs a move, and a space between two.
pub const TEXT_ROOM: usize = 5 * MOST_MOVES - 1;

// A space, but for the first move.
#[tactic(auto, using(crate::proofs::Writing::puts_nothing), unfolding(crate::specs::Inner::gap))]
fn put_gap(text: &mut [u8], at: usize) -> usize
    requires { at + length (gap at) ≤ length text.old }
    ensures { Puts text.old text.new at result (gap at) }
{
    if at == 0 {
        at
    } else {
        put_bytes(text, at, b" ")
    }
}

// A move on a board, after what is written up to a place.
fn put_move<'a>(
    m: Move,
    cells: &'a [u8; 4],
    foundation: &'a [u8; 4],
    counts: &'a [u8; 8],
    tableau: &'a [u8; CODES],
    text: &mut [u8],
    at: usize,
) -> usize
    requires sound { Sound (laid cells.now foundation.now counts.now tableau.now) }
    requires m_value { sayable m ≡ true }
    requires m_in_bounds { at + length (next_text at (jot_of (shown (laid cells.now foundation.now counts.now tableau.now)) m)) ≤ length text.old }
    ensures { Puts text.old text.new at result (next_text at (jot_of (shown (laid cells.now foundation.now counts.now tableau.now)) m)) }
{
    let jot = jot_at(m, cells, foundation, counts, tableau);
    let start = put_gap(text, at);
    put_jot(text, start, jot)
}

// The move of a record that can be played: written, then played.
fn write_record(
    bytes: &[u8],
    cells: &mut [u8; 4],
    foundation: &mut [u8; 4],
    counts: &mut [u8; 8],
    tableau: &mut [u8; CODES],
    text: &mut [u8],
    at: usize,
) -> usize
    requires { Next (laid cells.old foundation.old counts.old tableau.old) bytes.now at (length text.old) }
    ensures { Notes (laid cells.old foundation.old counts.old tableau.old) bytes.now text.old text.new at result (laid cells.new foundation.new counts.new tableau.new) }
{
    let Some(m) = moves::decode(bytes) else {
        return at;
    };
    let end = put_move(m, cells, foundation, counts, tableau, text, at);
    play::apply_to(m, cells, foundation, counts, tableau);
    end
}

// A list that can be played: each move written on the board that those before it leave.
fn write_moves(
    bytes: &[u8],
    cells: &mut [u8; 4],
    foundation: &mut [u8; 4],
    counts: &mut [u8; 8],
    tableau: &mut [u8; CODES],
    text: &mut [u8],
) -> usize
    requires { Whole (laid cells.old foundation.old counts.old tableau.old) bytes.now (length text.old) }
    ensures { Puts text.old text.new 0 result (text_of (shown (laid cells.old foundation.old counts.old tableau.old)) (moves_in bytes.now)) }
{
    let mut to = 0;
    for record in bytes.chunks_exact(5) {
        to = write_record(record, cells, foundation, counts, tableau, text, to);
    }
    to
}

// The same on a board by value.
fn write_all(b: Board, bytes: &[u8], text: &mut [u8]) -> usize
    requires { Whole b bytes.now (length text.old) }
    ensures { Puts text.old text.new 0 result (text_of (shown b) (moves_in bytes.now)) }
{
    let mut cells = b.cells;
    let mut foundation = b.foundation;
    let mut counts = b.counts;
    let mut tableau = b.tableau;
    write_moves(
        bytes,
        &mut cells,
        &mut foundation,
        &mut counts,
        &mut tableau,
        text,
    )
}

// A record of kinds 1 to 5 has its signs; a card that comes back from its foundation has none.
fn is_writable(kind: u8) -> bool
    ensures { (f t n code : ℕ) → result ≡ writable (move_said kind f t n code) }
{
    (1..6).contains(&kind)
}

// The place of the first move that cannot be written, if there is one.
fn first_unwritable(bytes: &[u8]) -> Option<usize>
    ensures { Unwritable (moves_in bytes.now) result }
{
    for (place, record) in bytes.chunks_exact(5).enumerate() {
        if !is_writable(record[0]) {
            return Some(place);
        }
    }
    None
}

// A list replayed from a board, which stays as it is.
fn play_through(b: Board, bytes: &[u8]) -> Stopped
    requires sound { Sound b }
    requires bytes_len { length bytes.now % 5 ≡ 0 }
    ensures { Stops (line_from b (records_in bytes.now)) result }
{
    let mut cells = b.cells;
    let mut foundation = b.foundation;
    let mut counts = b.counts;
    let mut tableau = b.tableau;
    replay_to(
        bytes,
        &mut cells,
        &mut foundation,
        &mut counts,
        &mut tableau,
    )
}

// The first bad move, 43, 21, or the text, on a well formed board.
fn write_line_at(b: Board, bytes: &[u8], text: &mut [u8]) -> Result<usize, LineError>
    requires sound { Sound b }
    requires bytes_value { is_line bytes.now ≡ true }
    ensures { Writes b bytes.now text.old text.new result }
{
    let stopped = play_through(b, bytes);
    let said = stopped.said;
    let moves = stopped.moves;
    if let Err(why) = said {
        return Err(LineError::At(why, moves));
    }
    if let Some(place) = first_unwritable(bytes) {
        return Err(LineError::At(Refusal::NotWritable, place));
    }
    if text.len() < TEXT_ROOM {
        return Err(Refusal::LittleRoom.into());
    }
    Ok(write_all(b, bytes, text))
}

// 12 to 15, 31, the first bad move with its place, 43 with its place, 21, or the text at the front of the room.
pub fn write_line(b: Board, bytes: &[u8], text: &mut [u8]) -> Result<usize, LineError>
    ensures { Writes b bytes.now text.old text.new result }
{
    inspect(&b.cells, &b.foundation, &b.counts, &b.tableau)?;
    if !is_line(bytes) {
        return Err(Refusal::WrongList.into());
    }
    write_line_at(b, bytes, text)
}
