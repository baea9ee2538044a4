// One sheet added to another, where it stands.
#![tactic(auto)]

ghost use Rattle.std.specs.Prelude.{◌≡◌, ◌&&◌, ◌<◌, ◌≤◌, length};
ghost use Rattle.sheets.specs.Good.{covered};
ghost use Rattle.sheets.specs.Adding.{flag_of, same_settings, apart, added};
ghost use Rattle.sheets.specs.Promises.{Addable, Roomy, Summed, Small, mark_chosen, Adds};

use audit::{covered_at, examine};
use board::Refusal;
use sheets::{LAST_DEAL, Mark, Side};

// A flag as it comes out.
fn flag(word: u64) -> u64
    ensures { result ≡ flag_of word }
{
    u64::from(word != 0)
}

// The settings are equal.
#[tactic(auto, unfolding(sheets::specs::Figures::told, sheets::specs::Adding::same_settings))]
fn settings_equal(a: &[u64], b: &[u64]) -> bool
    requires { (length a.now ≡ 716) × (length b.now ≡ 716) }
    ensures { result ≡ same_settings a.now b.now }
{
    a[sheets::BUDGET] == b[sheets::BUDGET]
        && a[sheets::CAPACITY] == b[sheets::CAPACITY]
        && flag(a[sheets::FLAG]) == flag(b[sheets::FLAG])
}

// A deal number is in both.
fn in_both(a: &[u64], b: &[u64], n: usize) -> bool
    requires a_len { (length a.now ≡ 716) × (length b.now ≡ 716) }
    requires n_nonzero { (0 < n) × (n ≤ 32000) }
    ensures { result ≡ (covered a.now n && covered b.now n) }
{
    covered_at(a, n) && covered_at(b, n)
}

// None is.
fn none_common(a: &[u64], b: &[u64]) -> bool
    requires { (length a.now ≡ 716) × (length b.now ≡ 716) }
    ensures { result ≡ apart a.now b.now }
{
    (1..LAST_DEAL + 1).all(|n| !in_both(a, b, n))
}

// The words from one place to before another.
fn add_words(into: &mut [u64], other: &[u64], from: usize, end: usize)
    requires { Roomy into.old other.now from end }
    ensures { Summed into.old other.now from end into.new }
{
    // By their places: after a loop over `iter_mut().zip(..)` no proof knows what it wrote.
    for i in from..end {
        into[i] += other[i];
    }
}

// The better of two marks.
fn add_mark(into: &mut [u64], other: &[u64], side: Side)
    requires small { Small side into.old }
    requires small_2 { Small side other.now }
    ensures { into.new ≡ mark_chosen side into.old other.now }
{
    if Mark::key_on(other, side) < Mark::key_on(into, side) {
        Mark::of(other, side).put(into, side);
    }
}

// All figures.
fn add_figures(into: &mut [u64], other: &[u64])
    requires { Addable into.old other.now }
    ensures { into.new ≡ added into.old other.now }
{
    into[sheets::FLAG] = flag(into[sheets::FLAG]);
    add_words(into, other, sheets::ANSWERS, sheets::SHORTEST);
    add_words(into, other, sheets::LISTS, sheets::SHEET);
    add_mark(into, other, Side::Shortest);
    add_mark(into, other, Side::Longest);
}

// A sheet added to the first, or why not, and then the first is left as it was.
pub fn add(into: &mut [u64], other: &[u64]) -> Result<(), Refusal>
    ensures { Adds into.old other.now into.new result }
{
    if !examine(into) {
        return Err(Refusal::WrongSheet);
    }
    if !examine(other) {
        return Err(Refusal::WrongSheet);
    }
    if !settings_equal(into, other) {
        return Err(Refusal::OtherSettings);
    }
    if !none_common(into, other) {
        return Err(Refusal::CommonDeal);
    }
    add_figures(into, other);
    Ok(())
}
