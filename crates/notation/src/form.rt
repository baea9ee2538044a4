// The form of a line: what each sign says where something is due, and a whole text looked at once.
#![tactic(auto, unfolding(crate::specs::Form::step_from, crate::specs::Form::within, crate::specs::Form::digit_said))]

ghost use Rattle.std.specs.Prelude.{◌≡◌, ◌+◌, ◌≤◌};
ghost use Rattle.notation.specs.Form.{step_from, ending, line_in, formed_by};
ghost use Rattle.notation.specs.Inner.{formed_after, begun};
ghost use Rattle.notation.specs.declared.Due.TheVariants.{Source, OfColumn, OfCell, Pair, Digit, Whole};

use crate::{Due, Jot, Step, WrongSign};

// A move's first sign.
fn at_source(sign: u8) -> Step
    ensures { result ≡ step_from Source sign }
{
    match sign {
        b'1'..=b'8' => Step::On(Due::OfColumn(usize::from(sign - b'1'))),
        b'a'..=b'd' => Step::On(Due::OfCell(usize::from(sign - b'a'))),
        _ => Step::Wrong,
    }
}

// The second sign of a column's move.
fn at_column(i: usize, sign: u8) -> Step
    ensures { result ≡ step_from (OfColumn i) sign }
{
    match sign {
        b'1'..=b'8' => Step::On(Due::Pair(i, usize::from(sign - b'1'))),
        b'a'..=b'd' => Step::On(Due::Whole(Jot::ToCell {
            source: i,
            cell: usize::from(sign - b'a'),
        })),
        b'h' => Step::On(Due::Whole(Jot::ToHome { source: i })),
        _ => Step::Wrong,
    }
}

// The second sign of a cell's move.
fn at_cell(cell: usize, sign: u8) -> Step
    ensures { result ≡ step_from (OfCell cell) sign }
{
    match sign {
        b'1'..=b'8' => Step::On(Due::Whole(Jot::FromCell {
            cell,
            destination: usize::from(sign - b'1'),
        })),
        b'h' => Step::On(Due::Whole(Jot::CellHome { cell })),
        _ => Step::Wrong,
    }
}

// After two columns: a space, or `v`.
fn at_pair(source: usize, destination: usize, sign: u8) -> Step
    ensures { result ≡ step_from (Pair source destination) sign }
{
    match sign {
        b' ' => Step::Ends(Jot::Between {
            source,
            destination,
        }),
        b'v' => Step::On(Due::Digit(source, destination)),
        _ => Step::Wrong,
    }
}

// After `v`: a hexadecimal digit.
fn at_digit(source: usize, destination: usize, sign: u8) -> Step
    ensures { result ≡ step_from (Digit source destination) sign }
{
    let count = match sign {
        b'0'..=b'9' => sign - b'0',
        b'a'..=b'f' => sign - b'a' + 10,
        _ => return Step::Wrong,
    };
    Step::On(Due::Whole(Jot::Counted {
        source,
        destination,
        count: usize::from(count),
    }))
}

// After a whole move: a space.
fn at_whole(jot: Jot, sign: u8) -> Step
    ensures { result ≡ step_from (Whole jot) sign }
{
    match sign {
        b' ' => Step::Ends(jot),
        _ => Step::Wrong,
    }
}

// What a sign does where something is due.
pub fn step_from(due: Due, sign: u8) -> Step
    ensures { result ≡ step_from due sign }
{
    match due {
        Due::Source => at_source(sign),
        Due::OfColumn(i) => at_column(i, sign),
        Due::OfCell(cell) => at_cell(cell, sign),
        Due::Pair(source, destination) => at_pair(source, destination, sign),
        Due::Digit(source, destination) => at_digit(source, destination, sign),
        Due::Whole(jot) => at_whole(jot, sign),
    }
}

// The text ends where something is due, after so many moves.
fn at_end(due: Due, moves: usize, at: usize) -> Result<usize, WrongSign>
    requires { moves + begun due ≤ at }
    ensures { result ≡ formed_after moves (ending due at) }
{
    match due {
        Due::Pair(..) | Due::Whole(_) => Ok(moves + 1),
        Due::Source | Due::OfColumn(_) | Due::OfCell(_) | Due::Digit(..) => {
            Err(WrongSign { place: at })
        }
    }
}

// How many moves are written in a text, or the place of its first wrong sign.
pub fn check(text: &[u8]) -> Result<usize, WrongSign>
    ensures { result ≡ formed_by (line_in text.now) }
{
    if text.is_empty() {
        return Ok(0);
    }
    let mut due = Due::Source;
    let mut moves = 0;
    for (place, &sign) in text.iter().enumerate() {
        match step_from(due, sign) {
            Step::On(then) => due = then,
            Step::Ends(_) => {
                due = Due::Source;
                moves += 1;
            }
            Step::Wrong => return Err(WrongSign { place }),
        }
    }
    at_end(due, moves, text.len())
}
