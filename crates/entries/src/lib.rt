// A sheet started, and deals entered into it one by one.
#![tactic(auto)]

ghost use Rattle.std.specs.Prelude.{◌≡◌, ◌+◌, ◌^◌, ◌<◌, ◌≤◌, length, get_or};
ghost use Rattle.base.specs.Words.{occurs};
ghost use Rattle.sheets.specs.Figures.{answers_counted};
ghost use Rattle.sheets.specs.declared.Side.TheVariants.{Shortest as shortest, Longest as longest};
ghost use Rattle.sheets.specs.Over.{zero_sheet};
ghost use Rattle.sheets.specs.Noted.{noted};
ghost use Rattle.sheets.specs.Promises.{Small, mark_entered, Enterable, Raised, WinNoted};

use sheets::{Mark, Side};

// A sheet with no deal.
pub fn start(sheet: &mut [u64], budget: u64, capacity: u64, partial: bool)
    requires { length sheet.old ≡ 716 }
    ensures { sheet.new ≡ zero_sheet (record { budget = budget; capacity = capacity; partial = partial }) }
{
    base::blank::clear(sheet);
    sheet[sheets::BUDGET] = budget;
    sheet[sheets::CAPACITY] = capacity;
    sheet[sheets::FLAG] = u64::from(partial);
}

// A word raised.
fn raise(sheet: &mut [u64], at: usize, by: u64)
    requires at_in_bounds { at < length sheet.old }
    requires by_bound { get_or sheet.old at 0 + by < 2 ^ 64 }
    ensures { Raised sheet.old at by sheet.new }
{
    sheet[at] += by;
}

// The place of an answer among those that are counted.
fn answer_at(answer: u8) -> usize
    requires { occurs answer answers_counted ≡ 1 }
    ensures { (result < 7) × (get_or answers_counted result 0 ≡ answer) }
{
    match answer {
        23 => 6,
        _ => usize::from(answer),
    }
}

// A won list against a mark.
fn note_mark(sheet: &mut [u64], side: Side, won: Mark)
    requires small { Small side sheet.old }
    requires list_bound { (won.list ≤ 200) × (won.deal ≤ 32000) }
    ensures { sheet.new ≡ mark_entered side sheet.old won.list won.deal }
{
    if won.key(side) < Mark::key_on(sheet, side) {
        won.put(sheet, side);
    }
}

// A won list: its length is counted, and it is held against both marks.
fn note_win(sheet: &mut [u64], moves: usize, n: usize)
    requires moves_bound { (moves ≤ 200) × (n ≤ 32000) }
    requires moves_bound_2 { get_or sheet.old (15 + moves) 0 ≤ 32000 }
    requires small { Small shortest sheet.old }
    requires small_2 { Small longest sheet.old }
    ensures { WinNoted sheet.old moves n sheet.new }
{
    let won = Mark {
        list: moves as u64,
        deal: n as u64,
    };
    raise(sheet, sheets::LISTS + moves, 1);
    note_mark(sheet, Side::Shortest, won);
    note_mark(sheet, Side::Longest, won);
}

// What deal n gave: the answer's number, the pops, and how many moves the list has.
pub fn note(sheet: &mut [u64], n: usize, answer: u8, pops: usize, moves: usize)
    requires { Enterable sheet.old n (record { answer = answer; pops = pops; moves = moves }) }
    ensures { sheet.new ≡ noted sheet.old n (record { answer = answer; pops = pops; moves = moves }) }
{
    raise(sheet, sheets::ANSWERS + answer_at(answer), 1);
    raise(sheet, sheets::POPS, pops as u64);
    let place = n - 1;
    raise(sheet, sheets::COVERS + place / 64, 1 << (place % 64));
    if answer == 0 {
        note_win(sheet, moves, n);
    }
}
