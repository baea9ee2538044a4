// Lines of numbers, written into lent room.
ghost use Rattle.std.specs.Prelude.{◌+◌, ◌*◌, ◌≤◌, length};
ghost use Rattle.base.specs.Put.{Puts};
ghost use Rattle.onetext.specs.Text.{line, line_end};
ghost use Rattle.onetext.specs.Inner.{PutsFew, record_lines};

use score::token;

// The numbers after the first, each after a space, and the newline.
fn put_rest(out: &mut [u8], at: usize, rest: &[u8]) -> usize
    requires { at + length rest.now * 4 + 1 ≤ length out.old }
    ensures { PutsFew out.old out.new at result (length rest.now * 4 + 1) (line_end rest.now) }
{
    let mut to = at;
    for n in rest {
        to = token::put(out, to, b" ", usize::from(*n));
    }
    base::put::put_bytes(out, to, b"\n")
}

// A line of numbers below 256, at a place.
pub fn put_line(out: &mut [u8], at: usize, numbers: &[u8]) -> usize
    requires in_bounds { 1 ≤ length numbers.now }
    requires numbers_in_bounds { at + length numbers.now * 4 ≤ length out.old }
    ensures { PutsFew out.old out.new at result (length numbers.now * 4) (line numbers.now) }
{
    let to = token::put_number(out, at, usize::from(numbers[0]));
    put_rest(out, to, &numbers[1..])
}

// A line for each of the first n records of a list, at a place.
pub fn put_records(out: &mut [u8], at: usize, list: &[u8], n: usize) -> usize
    requires n_in_bounds { n * 5 ≤ length list.now }
    requires n_in_bounds_2 { at + n * 20 ≤ length out.old }
    ensures { Puts out.old out.new at result (record_lines n list.now) }
{
    let mut to = at;
    for record in list.chunks_exact(5).take(n) {
        to = put_line(out, to, record);
    }
    to
}
