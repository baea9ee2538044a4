// Sheets added that come from outside: each clause of 47 by a changed word, 45, 44, sums, wins of two lengths, sheets
// of other lengths. Each line: a label, the number (0: added), and the words of the first sheet afterwards that are not
// zero, each with its place.
#![tactic(auto)]

use std::fmt::Display;
use std::io;

// Words of a sheet, each with its place.
type Words = &'static [(usize, u64)];

// Deal 3 was won with 95 moves, after 7 pops.
const WON: Words = &[
    (0, 1000),
    (1, 64),
    (2, 1),
    (3, 1),
    (10, 7),
    (11, 95),
    (12, 3),
    (13, 95),
    (14, 3),
    (110, 1),
    (216, 4),
];

// Deal 5 came to the limit.
const LIMIT: Words = &[(0, 1000), (1, 64), (2, 1), (6, 1), (10, 1000), (216, 16)];

// Deal 7 was won with 80 moves, deal 9 with 95, after 20 pops in all.
const TWO_WINS: Words = &[
    (0, 1000),
    (1, 64),
    (2, 1),
    (3, 2),
    (10, 20),
    (11, 80),
    (12, 7),
    (13, 95),
    (14, 9),
    (95, 1),
    (110, 1),
    (216, 320),
];

// A label, and what is changed on the sheet of the win and on that of the limit before the second is added to the
// first.
const CHANGED: [(&str, Words, Words); 38] = [
    ("budget_1000001", &[(0, 1_000_001)], &[]),
    ("answers_more", &[(4, 1)], &[]),
    ("answers_wrap", &[(4, u64::MAX), (5, 1)], &[]),
    ("answers_wrap_to_1", &[(3, u64::MAX), (5, 2)], &[]),
    ("answers_none", &[(3, 0)], &[]),
    ("covers_more", &[(217, 1)], &[]),
    ("covers_none", &[(216, 0)], &[]),
    ("lengths_more", &[(111, 1)], &[]),
    ("lengths_wrap", &[(111, u64::MAX), (112, 1)], &[]),
    ("lengths_none", &[(110, 0)], &[]),
    ("pops_1000", &[(10, 1000)], &[]),
    ("pops_1001", &[(10, 1001)], &[]),
    ("budget_0_pops_0", &[(0, 0), (10, 0)], &[]),
    ("shortest_94", &[(11, 94)], &[]),
    ("shortest_201", &[(11, 201)], &[]),
    ("shortest_18446744073709551615", &[(11, u64::MAX)], &[]),
    ("shortest_deal_4", &[(12, 4)], &[]),
    ("shortest_deal_32001", &[(12, 32_001)], &[]),
    ("shortest_absent", &[(11, 0), (12, 0)], &[]),
    ("longest_96", &[(13, 96)], &[]),
    ("longest_deal_0", &[(14, 0)], &[]),
    ("longest_absent", &[(13, 0), (14, 0)], &[]),
    ("length_moved", &[(110, 0), (111, 1)], &[]),
    ("other_shortest_without_win", &[], &[(12, 5)]),
    ("other_longest_without_win", &[], &[(13, 1)]),
    ("other_budget_1000001", &[], &[(0, 1_000_001)]),
    ("other_pops_1001", &[], &[(10, 1001)]),
    ("sum", &[], &[]),
    ("budget_999", &[(0, 999)], &[]),
    ("capacity_65", &[(1, 65)], &[]),
    ("capacity_0", &[(1, 0)], &[]),
    ("flag_0", &[(2, 0)], &[]),
    ("flag_9_is_yes", &[(2, 9)], &[]),
    (
        "other_flag_18446744073709551615_is_yes",
        &[],
        &[(2, u64::MAX)],
    ),
    ("common_3", &[], &[(216, 4)]),
    ("45_before_44", &[(1, 65)], &[(216, 4)]),
    ("47_before_45", &[(1, 65)], &[(10, 1001)]),
    ("deals_without_number", &[], &[(216, 0)]),
];

// A label, and the lengths that the sheet of two wins tells as its shortest and its longest: a mark of the other win's
// length is wrong.
const MARKED: [(&str, u64, u64); 6] = [
    ("wins_80_95", 80, 95),
    ("wins_shortest_95", 95, 95),
    ("wins_longest_80", 80, 80),
    ("wins_exchanged", 95, 80),
    ("wins_shortest_79", 79, 95),
    ("wins_longest_96", 80, 96),
];

// Writes the words that a sheet has a place for.
fn put(sheet: &mut [u64], words: &[(usize, u64)]) {
    for (at, value) in words {
        if let Some(word) = sheet.get_mut(*at) {
            *word = *value;
        }
    }
}

// A sheet of these words, and zero at all other places.
fn sheet_of(words: &[(usize, u64)]) -> [u64; 716] {
    let mut sheet = [0; 716];
    put(&mut sheet, words);
    sheet
}

fn added(
    rt: &impl Print,
    label: impl Display + Drop,
    into: &mut [u64],
    other: &[u64],
) -> io::Result<()> {
    let said = saying::examined(totals::add(into, other));
    print!(rt; "{label} {said}")?;
    for (at, word) in into.iter().enumerate() {
        if *word != 0 {
            print!(rt; " {at}:{word}")?;
        }
    }
    println!(rt)
}

fn changed(rt: &impl Print) -> io::Result<()> {
    for (label, first, second) in CHANGED {
        let mut won = sheet_of(WON);
        let mut limit = sheet_of(LIMIT);
        put(&mut won, first);
        put(&mut limit, second);
        added(rt, label, &mut won, &limit)?;
    }
    Ok(())
}

// A sheet with itself, with deals and without.
fn with_itself(rt: &impl Print) -> io::Result<()> {
    added(rt, "itself", &mut sheet_of(WON), &sheet_of(WON))?;
    added(rt, "empty_itself", &mut sheet_of(&[]), &sheet_of(&[]))
}

// Two wins: equal lists keep the lower deal, whichever is added to which.
fn ties(rt: &impl Print) -> io::Result<()> {
    let mut first = sheet_of(WON);
    let mut second = first;
    put(
        &mut second,
        &[(12, 32_000), (14, 32_000), (216, 0), (715, 1 << 63)],
    );
    added(rt, "tie", &mut first, &second)?;
    added(rt, "tie_turned", &mut second, &sheet_of(WON))
}

// Wins of two lengths: the shortest is the shorter, the longest the longer of them.
fn two_lengths(rt: &impl Print) -> io::Result<()> {
    for (label, shortest, longest) in MARKED {
        let mut wins = sheet_of(TWO_WINS);
        put(&mut wins, &[(11, shortest), (13, longest)]);
        let mut limit = sheet_of(LIMIT);
        let before = wins;
        added(rt, label, &mut wins, &limit)?;
        added(rt, format_args!("other_{label}"), &mut limit, &before)?;
    }
    Ok(())
}

// A third win, deal 3 with 95 moves: the shortest stays, the longest has the lower deal, whichever is added to which.
fn third_win(rt: &impl Print) -> io::Result<()> {
    let mut third = sheet_of(WON);
    added(rt, "third_win", &mut sheet_of(TWO_WINS), &third)?;
    added(rt, "third_win_turned", &mut third, &sheet_of(TWO_WINS))
}

fn lengths(rt: &impl Print) -> io::Result<()> {
    let mut short = [0; 715];
    let mut long = [0; 717];
    let mut limit = sheet_of(LIMIT);
    put(&mut short, WON);
    put(&mut long, WON);
    added(rt, "words_715", &mut short, &limit)?;
    added(rt, "words_717", &mut long, &limit)?;
    added(rt, "other_words_715", &mut limit, &short)?;
    added(rt, "other_words_717", &mut limit, &long)?;
    added(rt, "other_words_0", &mut limit, &[])
}

fn main(rt: HostRuntime) -> io::Result<()> {
    changed(&rt)?;
    with_itself(&rt)?;
    ties(&rt)?;
    two_lengths(&rt)?;
    third_win(&rt)?;
    lengths(&rt)
}
