// Whether a sheet is good (47), and which deals it covers.
#![tactic(auto)]

ghost use Rattle.std.specs.Prelude.{◌≡◌, ◌||◌, ◌+◌, ◌<◌, ◌≤◌, eqb, leb, length, get_or};
ghost use Rattle.base.specs.Words.{every, sum};
ghost use Rattle.sheets.specs.Figures.{told, lists};
ghost use Rattle.sheets.specs.Over.{behind};
ghost use Rattle.sheets.specs.Good.{covered, deals, is_absent, is_best, has_deal, good_mark, good_sheet};

use sheets::{LAST_DEAL, LENGTHS, LONGEST_LIST, Mark, Side};

// The sheet covers a deal number.
#[tactic(auto, unfolding(sheets::specs::Figures::told, sheets::specs::Good::covered))]
pub fn covered_at(sheet: &[u64], n: usize) -> bool
    requires sheet_len { length sheet.now ≡ 716 }
    requires n_nonzero { (0 < n) × (n ≤ 32000) }
    ensures { result ≡ covered sheet.now n }
{
    let place = n - 1;
    let above = sheet[sheets::COVERS + place / 64] >> (place % 64);
    above % 2 == 1
}

// How many deals it covers.
fn count_deals(sheet: &[u64]) -> usize
    requires { length sheet.now ≡ 716 }
    ensures { result ≡ deals sheet.now }
{
    // a `for`: `filter` and `count` take a third more instructions (corbelnib_add, callgrind)
    let mut count = 0;
    for i in 0..LAST_DEAL {
        if covered_at(sheet, i + 1) {
            count += 1;
        }
    }
    count
}

// Some words add up to a total: each is taken from what is left of it, so that no sum can wrap.
fn adds_up(words: &[u64], total: u64) -> bool
    ensures { result ≡ eqb (sum (length words.now) (λ k. get_or words.now k 0)) total }
{
    let mut left = total;
    for word in words {
        let Some(rest) = left.checked_sub(*word) else {
            return false;
        };
        left = rest;
    }
    left == 0
}

// No won list of m moves is better than a list.
#[tactic(auto, unfolding(sheets::specs::Figures::told))]
fn no_better(sheet: &[u64], side: Side, list: u64, m: usize) -> bool
    requires sheet_len { length sheet.now ≡ 716 }
    requires list_bound { (list ≤ 200) × (m < 201) }
    ensures { result ≡ (eqb (told sheet.now (lists m)) 0 || leb (behind side list) (behind side m)) }
{
    sheet[sheets::LISTS + m] == 0 || side.behind(list) <= side.behind(m as u64)
}

// None of any length is.
fn none_better(sheet: &[u64], side: Side, list: u64) -> bool
    requires sheet_len { length sheet.now ≡ 716 }
    requires list_bound { list ≤ 200 }
    ensures { result ≡ every 201 (λ m. eqb (told sheet.now (lists m)) 0 || leb (behind side list) (behind side m)) }
{
    (0..LENGTHS).all(|m| no_better(sheet, side, list, m))
}

// The mark has a won list's length, and none is better.
#[tactic(auto, unfolding(sheets::specs::Figures::told, sheets::specs::Good::is_best))]
fn best(sheet: &[u64], side: Side) -> bool
    requires { length sheet.now ≡ 716 }
    ensures { result ≡ is_best side sheet.now }
{
    let list = Mark::of(sheet, side).list;
    list <= LONGEST_LIST
        && sheet[sheets::LISTS + list as usize] != 0
        && none_better(sheet, side, list)
}

// The mark names a deal that the sheet has.
#[tactic(auto, unfolding(sheets::specs::Good::has_deal))]
fn has_deal(sheet: &[u64], side: Side) -> bool
    requires { length sheet.now ≡ 716 }
    ensures { result ≡ has_deal side sheet.now }
{
    let n = Mark::of(sheet, side).deal as usize;
    (1..=LAST_DEAL).contains(&n) && covered_at(sheet, n)
}

// The mark is absent.
#[tactic(auto, unfolding(sheets::specs::Good::is_absent))]
fn absent(sheet: &[u64], side: Side) -> bool
    requires { length sheet.now ≡ 716 }
    ensures { result ≡ is_absent side sheet.now }
{
    Mark::of(sheet, side) == Mark::default()
}

// The mark is right.
#[tactic(auto, unfolding(sheets::specs::Figures::told, sheets::specs::Good::good_mark))]
fn right(sheet: &[u64], side: Side) -> bool
    requires { length sheet.now ≡ 716 }
    ensures { result ≡ good_mark side sheet.now }
{
    if sheet[sheets::ANSWERS] == 0 {
        absent(sheet, side)
    } else {
        best(sheet, side) && has_deal(sheet, side)
    }
}

// The sheet is good.
pub fn examine(sheet: &[u64]) -> bool
    ensures { result ≡ good_sheet sheet.now }
{
    if sheet.len() != sheets::SHEET {
        return false;
    }
    let budget = sheet[sheets::BUDGET];
    if sheets::MOST_BUDGET < budget {
        return false;
    }
    let count = count_deals(sheet) as u64;
    if !adds_up(&sheet[sheets::ANSWERS..sheets::POPS], count) {
        return false;
    }
    let wins = sheet[sheets::ANSWERS];
    if !adds_up(&sheet[sheets::LISTS..sheets::COVERS], wins) {
        return false;
    }
    if !right(sheet, Side::Shortest) {
        return false;
    }
    if !right(sheet, Side::Longest) {
        return false;
    }
    sheet[sheets::POPS] <= budget * count
}
