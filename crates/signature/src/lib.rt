// FNV-1a and the signature of a board (after freecell/board.rs, `compute_signature`, changed: NOTICE).
#![tactic(auto)]

ghost use Rattle.std.specs.Prelude.{◌≡◌, ◌*◌, ◌%◌, ◌^◌, ◌<◌, ◌≤◌, length};
ghost use Rattle.board.specs.Refusal.{answered};
ghost use Rattle.base.specs.Words.{listed, concat};
ghost use Rattle.board.specs.Record.{shown, column_at, laid};
ghost use Rattle.board.specs.Inner.{GoodPiles, GoodColumns, Sound};
ghost use Rattle.board.specs.Table.{pile};
ghost use Rattle.signature.specs.Fnv.{prime, fnv_step, fnv_from, fnv};
ghost use Rattle.signature.specs.Signed.{home_words, column_hashes, signed, signature_of, signature_asked};

use board::verdict::inspect;
use board::{Board, CODES, Refusal};
use std::array;

const OFFSET: u64 = 14695981039346656037;

// Times 1099511628211 = 2^40 + 2^8 + 2^7 + 2^5 + 2^4 + 2 + 1 modulo 2^64, by shifts and sums: the form that SCOPE.md names.
fn times_prime(x: u64) -> u64
    ensures { result ≡ x * prime % 2 ^ 64 }
{
    let high = x << 40;
    let with_256 = high.wrapping_add(x << 8);
    let with_128 = with_256.wrapping_add(x << 7);
    let with_32 = with_128.wrapping_add(x << 5);
    let with_16 = with_32.wrapping_add(x << 4);
    let with_2 = with_16.wrapping_add(x << 1);
    with_2.wrapping_add(x)
}

// One word more: XOR first, then times the prime.
pub fn step(h: u64, x: u64) -> u64
    ensures { result ≡ fnv_step h x }
{
    times_prime(h ^ x)
}

// FNV-1a of some bytes; of a column's codes, its hash.
pub fn fnv1a(s: &[u8]) -> u64
    ensures { result ≡ fnv s.now }
{
    s.iter().fold(OFFSET, |h, x| step(h, u64::from(*x)))
}

// On from a hash with some words.
fn take_words(h: u64, s: &[u64]) -> u64
    ensures { result ≡ fnv_from h s.now }
{
    s.iter().fold(h, |now, x| step(now, *x))
}

// On with the first n cards of a suit.
fn take_pile(h: u64, s: u64, n: u64) -> u64
    requires s_bound { s < 4 }
    requires n_bound { n ≤ 13 }
    ensures { result ≡ fnv_from h (pile s n) }
{
    (0..n).fold(h, |now, v| step(now, (v + 1) * 16 + s))
}

// On with a suit's words.
fn take_home(h: u64, foundation: &[u8; 4], i: usize) -> u64
    requires good_piles { GoodPiles foundation.now }
    requires i_bound { i < 4 }
    ensures { result ≡ fnv_from h (home_words foundation.now i) }
{
    let s = i as u64;
    let marked = step(h, s + 256);
    take_pile(marked, s, u64::from(foundation[i]))
}

// The words of the four foundations.
fn take_homes(foundation: &[u8; 4]) -> u64
    requires { GoodPiles foundation.now }
    ensures { result ≡ fnv (concat (listed 4 (home_words foundation.now))) }
{
    (0..4).fold(OFFSET, |h, i| take_home(h, foundation, i))
}

// The signature of foundation counts, cells and column hashes.
pub fn sign<'a>(foundation: &'a [u8; 4], cells: &'a [u8; 4], hashes: &'a [u64; 8]) -> u64
    requires good_piles { GoodPiles foundation.now }
    requires cells_len { length cells.now ≡ 4 }
    requires hashes_len { length hashes.now ≡ 8 }
    ensures { result ≡ signed foundation.now cells.now hashes.now }
{
    let mut held = cells.map(u64::from);
    let mut lie = *hashes;
    base::order::sort(&mut held);
    base::order::sort(&mut lie);
    let homes = take_homes(foundation);
    let with_cells = take_words(step(homes, 253), &held);
    take_words(step(with_cells, 254), &lie)
}

// The hash of a column.
pub fn hash_at<'a>(counts: &'a [u8; 8], tableau: &'a [u8], i: usize) -> u64
    requires good_columns { GoodColumns counts.now tableau.now }
    requires i_bound { i < 8 }
    ensures { result ≡ fnv (column_at counts.now tableau.now i) }
{
    fnv1a(questions::column_at(counts, tableau, i))
}

// The hashes of the eight columns.
pub fn hashes_at<'a>(counts: &'a [u8; 8], tableau: &'a [u8]) -> [u64; 8]
    requires { GoodColumns counts.now tableau.now }
    ensures { result ≡ column_hashes (listed 8 (column_at counts.now tableau.now)) }
{
    array::from_fn(|i| hash_at(counts, tableau, i))
}

// The signature of a well formed board.
pub fn signature_at<'a>(
    cells: &'a [u8; 4],
    foundation: &'a [u8; 4],
    counts: &'a [u8; 8],
    tableau: &'a [u8; CODES],
) -> u64
    requires { Sound (laid cells.now foundation.now counts.now tableau.now) }
    ensures { result ≡ signature_of (shown (laid cells.now foundation.now counts.now tableau.now)) }
{
    let hashes = hashes_at(counts, tableau);
    sign(foundation, cells, &hashes)
}

// 12 to 15, or the signature of a board.
pub fn signature_of(b: Board) -> Result<u64, Refusal>
    ensures { answered result ≡ signature_asked b }
{
    inspect(&b.cells, &b.foundation, &b.counts, &b.tableau)?;
    Ok(signature_at(&b.cells, &b.foundation, &b.counts, &b.tableau))
}
