// What an answer is to C: its number, and what it tells behind a pointer; a refusal tells its number alone.
ghost use Rattle.std.specs.Prelude.{◌≡◌};
ghost use Rattle.base.specs.Answer.{given_or};
ghost use Rattle.board.specs.Refusal.{answered};
ghost use Rattle.crossing.specs.Crossing.{left, told};
ghost use Rattle.crossing.specs.Lists.{way_asked};
ghost use Rattle.crossing.specs.Papers.{count_left};
ghost use Rattle.crossing.specs.Values.{value_left};
ghost use Rattle.crossing.specs.Questions.{top_code, code_left, yes_left};
ghost use Rattle.crossing.specs.Inner.{Coded, CodedAnswer};
ghost use Rattle.sense.specs.Outcome.{line_told};

use board::Refusal;
use card::Card;
use generate::Way;
use sense::LineError;

// 0, or the number of a refusal.
pub fn verdict(e: Result<(), Refusal>) -> u8
    ensures { result ≡ told (answered e) }
{
    match e {
        Ok(()) => 0,
        Err(why) => board::number(why),
    }
}

// Whatever was asked for.
pub fn value<T: Copy>(answer: Result<T, Refusal>, to: &mut T) -> u8
    ensures { left result to.new ≡ value_left (answered answer) to.old }
{
    match answer {
        Ok(x) => {
            *to = x;
            0
        }
        Err(why) => board::number(why),
    }
}

// How many moves or bytes a line has, or the place that a refusal tells.
pub fn line(answer: Result<usize, LineError>, to: &mut usize) -> u8
    ensures { left result to.new ≡ count_left (line_told answer) to.old }
{
    match answer {
        Ok(n) => {
            *to = n;
            0
        }
        Err(LineError::Refused(why)) => board::number(why),
        Err(LineError::At(why, place)) => {
            *to = place;
            board::number(why)
        }
    }
}

// The code of what lies on top; 255 for nothing.
fn code(t: Option<Card>) -> u8
    requires { Coded t }
    ensures { result ≡ top_code t }
{
    t.map_or(255, card::code_of)
}

// What lies on a column or in a cell.
pub fn top(answer: Result<Option<Card>, Refusal>, to: &mut u8) -> u8
    requires { CodedAnswer answer }
    ensures { left result to.new ≡ code_left (answered answer) to.old }
{
    value(answer.map(code), to)
}

// Yes or no.
pub fn won(answer: Result<bool, Refusal>, to: &mut u8) -> u8
    ensures { left result to.new ≡ yes_left (answered answer) to.old }
{
    value(answer.map(u8::from), to)
}

// The kind of move with this number, as in a move record.
#[tactic(auto, unfolding(crate::specs::Lists::way_asked))]
pub fn way_of(kind: u8) -> Option<Way>
    ensures { given_or 30 result ≡ way_asked kind }
{
    match kind {
        1 => Some(Way::ColumnToColumn),
        2 => Some(Way::ColumnToHome),
        3 => Some(Way::ColumnToCell),
        4 => Some(Way::CellToColumn),
        5 => Some(Way::CellToHome),
        6 => Some(Way::HomeToColumn),
        _ => None,
    }
}
