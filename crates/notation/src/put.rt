// A written move put into lent room: two signs, or four.
#![tactic(auto, unfolding(crate::specs::Jot::digit_sign, crate::specs::Jot::jot_text))]

ghost use Rattle.std.specs.Prelude.{◌≡◌, ◌∷◌, [], ◌+◌, ◌<◌, ◌≤◌, length};
ghost use Rattle.base.specs.Put.{Puts};
ghost use Rattle.notation.specs.Jot.{column_sign, cell_sign, digit_sign, jot_text, WellMade};

use crate::Jot;
use base::put::put_bytes;

// 1 to 8 for the columns. (Columns and cells have a function each: a call says which sign is meant.)
fn column_sign(i: usize) -> u8
    requires { i < 8 }
    ensures { result ≡ column_sign i }
{
    b'1' + i as u8
}

// a to d for the cells.
fn cell_sign(i: usize) -> u8
    requires { i < 4 }
    ensures { result ≡ cell_sign i }
{
    b'a' + i as u8
}

// 0 to 9, then a to f.
fn digit_sign(count: usize) -> u8
    requires { count < 16 }
    ensures { result ≡ digit_sign count }
{
    let n = count as u8;
    if n < 10 { b'0' + n } else { b'a' + (n - 10) }
}

// Two signs at a place.
fn put_pair(text: &mut [u8], at: usize, from: u8, to: u8) -> usize
    requires { at + 2 ≤ length text.old }
    ensures { Puts text.old text.new at result (from ∷ to ∷ []) }
{
    put_bytes(text, at, &[from, to])
}

// A written move at a place.
pub fn put_jot(text: &mut [u8], at: usize, jot: Jot) -> usize
    requires well_made { WellMade jot }
    requires jot_in_bounds { at + length (jot_text jot) ≤ length text.old }
    ensures { Puts text.old text.new at result (jot_text jot) }
{
    match jot {
        Jot::Between {
            source,
            destination,
        } => put_pair(text, at, column_sign(source), column_sign(destination)),
        Jot::Counted {
            source,
            destination,
            count,
        } => put_bytes(
            text,
            at,
            &[
                column_sign(source),
                column_sign(destination),
                b'v',
                digit_sign(count),
            ],
        ),
        Jot::ToCell { source, cell } => put_pair(text, at, column_sign(source), cell_sign(cell)),
        Jot::ToHome { source } => put_pair(text, at, column_sign(source), b'h'),
        Jot::FromCell { cell, destination } => {
            put_pair(text, at, cell_sign(cell), column_sign(destination))
        }
        Jot::CellHome { cell } => put_pair(text, at, cell_sign(cell), b'h'),
    }
}
