// A line read: its moves one after the other, each played on the board that those before it leave.
#![tactic(auto)]

ghost use Rattle.std.specs.Prelude.{◌≡◌, true, ◌+◌, ◌*◌, ◌<◌, ◌≤◌, length, IfOk};
ghost use Rattle.base.specs.Answer.{given};
ghost use Rattle.board.specs.Record.{shown, laid};
ghost use Rattle.board.specs.Inner.{Sound};
ghost use Rattle.moves.specs.Move.{sayable};
ghost use Rattle.moves.specs.Written.{list_room};
ghost use Rattle.notation.specs.Jot.{WellMade};
ghost use Rattle.notation.specs.Form.{line_in, formed_by};
ghost use Rattle.sense.specs.Meant.{meant};
ghost use Rattle.sense.specs.Outcome.{most_moves};
ghost use Rattle.reading.specs.Lines.{line_read};
ghost use Rattle.reading.specs.Asked.{Reads};
ghost use Rattle.reading.specs.Inner.{Takes, Cuts, EndCuts, Few, ReadTo, kept, ReadInto};

use board::verdict::inspect;
use board::{Board, CODES, Refusal};
use moves::{LIST_ROOM, MOST_MOVES, Move};
use notation::form::{check, step_from};
use notation::{Due, Jot, Step};
use sense::LineError;
use sense::meant::meant_at;

// 30, 33 to 40, or the move is played and its record written after n others.
fn make(
    m: Move,
    list: &mut [u8],
    n: usize,
    cells: &mut [u8; 4],
    foundation: &mut [u8; 4],
    counts: &mut [u8; 8],
    tableau: &mut [u8; CODES],
) -> Result<(), Refusal>
    requires sound { Sound (laid cells.old foundation.old counts.old tableau.old) }
    requires m_value { sayable m ≡ true }
    requires n_in_bounds { (n + 1) * 5 ≤ length list.old }
    ensures { Takes (laid cells.old foundation.old counts.old tableau.old) (laid cells.new foundation.new counts.new tableau.new) (given m) list.old list.new n result }
{
    play::rule::ruled_at(cells, foundation, counts, tableau, m)?;
    moves::write(list, n, m);
    play::apply_to(m, cells, foundation, counts, tableau);
    Ok(())
}

// The same for a written move.
fn take(
    jot: Jot,
    list: &mut [u8],
    n: usize,
    cells: &mut [u8; 4],
    foundation: &mut [u8; 4],
    counts: &mut [u8; 8],
    tableau: &mut [u8; CODES],
) -> Result<(), Refusal>
    requires sound { Sound (laid cells.old foundation.old counts.old tableau.old) }
    requires well_made { WellMade jot }
    requires n_in_bounds { (n + 1) * 5 ≤ length list.old }
    ensures { Takes (laid cells.old foundation.old counts.old tableau.old) (laid cells.new foundation.new counts.new tableau.new) (meant (shown (laid cells.old foundation.old counts.old tableau.old)) jot) list.old list.new n result }
{
    match meant_at(cells, foundation, counts, tableau, jot) {
        Ok(m) => make(m, list, n, cells, foundation, counts, tableau),
        Err(why) => Err(why),
    }
}

// The text ends where something is due: after a whole move, or too early.
fn last_jot(due: Due, end: usize) -> Option<(Jot, usize)>
    ensures { EndCuts due end result }
{
    match due {
        Due::Pair(source, destination) => {
            let jot = Jot::Between {
                source,
                destination,
            };
            Some((jot, end))
        }
        Due::Whole(jot) => Some((jot, end)),
        Due::Source | Due::OfColumn(_) | Due::OfCell(_) | Due::Digit(..) => None,
    }
}

// The written move at a place, and the place of the next; none where the text is no line.
fn jot_at(text: &[u8], at: usize) -> Option<(Jot, usize)>
    requires { at < length text.now }
    ensures { Cuts text.now at result }
{
    let mut due = Due::Source;
    for i in at..text.len() {
        match step_from(due, text[i]) {
            Step::On(then) => due = then,
            Step::Ends(jot) => return Some((jot, i + 1)),
            Step::Wrong => return None,
        }
    }
    last_jot(due, text.len())
}

// The moves of a line of at most 200, one after the other, on a well formed board: the first bad one, or their records.
fn read_to(
    text: &[u8],
    list: &mut [u8],
    cells: &mut [u8; 4],
    foundation: &mut [u8; 4],
    counts: &mut [u8; 8],
    tableau: &mut [u8; CODES],
) -> Result<usize, LineError>
    requires sound { Sound (laid cells.old foundation.old counts.old tableau.old) }
    requires few { Few (line_in text.now) }
    requires list_room_in_bounds { list_room ≤ length list.old }
    ensures read { ReadTo (line_read (shown (laid cells.old foundation.old counts.old tableau.old)) text.now) list.old list.new result }
    ensures few { IfOk result (λ n. n ≤ most_moves) }
{
    let mut n = 0;
    let mut at = 0;
    // no `for`: each move tells where the next begins
    while at < text.len() {
        let Some((jot, next)) = jot_at(text, at) else {
            return Err(LineError::At(Refusal::WrongText, at));
        };
        let said = take(jot, list, n, cells, foundation, counts, tableau);
        if let Err(why) = said {
            return Err(LineError::At(why, n));
        }
        n += 1;
        at = next;
    }
    Ok(n)
}

// How many records go into the lent list: none by a refusal.
fn records_kept(read: Result<usize, LineError>) -> usize
    ensures { result ≡ kept read }
{
    match read {
        Ok(n) => n,
        Err(LineError::Refused(_)) => 0,
        Err(LineError::At(_, _)) => 0,
    }
}

// A line of at most 200 moves on a well formed board. The records are made in room of our own: a refusal leaves what is lent.
fn read_few(b: Board, text: &[u8], list: &mut [u8]) -> Result<usize, LineError>
    requires sound { Sound b }
    requires few { Few (line_in text.now) }
    requires list_room_in_bounds { list_room ≤ length list.old }
    ensures { ReadInto (line_read (shown b) text.now) list.old list.new result }
{
    let mut cells = b.cells;
    let mut foundation = b.foundation;
    let mut counts = b.counts;
    let mut tableau = b.tableau;
    let mut records = [0u8; LIST_ROOM];
    let read = read_to(
        text,
        &mut records,
        &mut cells,
        &mut foundation,
        &mut counts,
        &mut tableau,
    );
    let used = records_kept(read) * 5;
    list[..used].copy_from_slice(&records[..used]);
    read
}

// A line of n moves: 31 past 200.
fn read_formed(b: Board, text: &[u8], n: usize, list: &mut [u8]) -> Result<usize, LineError>
    requires sound { Sound b }
    requires text_value { formed_by (line_in text.now) ≡ Ok n }
    requires list_room_in_bounds { list_room ≤ length list.old }
    ensures { ReadInto (line_read (shown b) text.now) list.old list.new result }
{
    if MOST_MOVES < n {
        return Err(Refusal::WrongList.into());
    }
    read_few(b, text, list)
}

// 12 to 15, 21, 42 with the place of the first wrong sign, 31, the first bad move's number with its place, or the moves' records.
pub fn read_line(b: Board, text: &[u8], list: &mut [u8]) -> Result<usize, LineError>
    ensures { Reads b text.now list.old list.new result }
{
    inspect(&b.cells, &b.foundation, &b.counts, &b.tableau)?;
    if list.len() < LIST_ROOM {
        return Err(Refusal::LittleRoom.into());
    }
    match check(text) {
        Ok(n) => read_formed(b, text, n, list),
        Err(wrong) => Err(LineError::At(Refusal::WrongText, wrong.place)),
    }
}
