// Writes some hands as players write them, a column a line, and a hash over the decks of all numbers, for comparison
// with the published listings (compare/src/listings.rs).
#![tactic(auto)]

use std::{fmt, io};

// The largest number.
const LAST: usize = 32_000;

// Hands that are listed, then numbers that no hand has.
const CHOSEN: [usize; 13] = [
    1,
    2,
    3,
    24,
    617,
    11_982,
    31_999,
    LAST,
    0,
    LAST + 1,
    2_147_484_265,
    4_294_967_297,
    usize::MAX,
];

const VALUES: &[u8; 16] = b"-A23456789TJQK--";

const SUITS: &[u8; 4] = b"CDHS";

// The cards of a column by their codes: a value, then a suit.
#[derive(Clone, Copy)]
struct Column<'a>(&'a [u8]);

impl fmt::Display for Column<'_> {
    fn fmt<W: fmt::Write>(&self, f: &mut fmt::Formatter<W>) -> fmt::Result {
        for (row, code) in self.0.iter().enumerate() {
            if 0 < row {
                write!(f, " ")?;
            }
            let value = char::from(VALUES[usize::from(code / 16)]);
            let suit = char::from(SUITS[usize::from(code % 4)]);
            write!(f, "{value}{suit}")?;
        }
        Ok(())
    }
}

// The number and its hand, or the refusal.
fn hand(rt: &impl Print, number: usize) -> io::Result<()> {
    println!(rt; "{number}")?;
    match intake::number::hand(number) {
        Ok(b) => {
            for (codes, _) in saying::columns(&b) {
                println!(rt; "{}", Column(codes))?;
            }
            Ok(())
        }
        Err(why) => println!(rt; "{}", saying::refusal(why)),
    }
}

// FNV-1a over the 52 codes of a deck and the eight octets of a hash, the lowest first.
fn linked(deck: [u8; 52], hash: u64) -> u64 {
    let mut octets = [0; 60];
    let (codes, rest) = octets.split_at_mut(52);
    codes.copy_from_slice(&deck);
    rest.copy_from_slice(&hash.to_le_bytes());
    signature::fnv1a(&octets)
}

// The decks of all numbers in turn, each with the hash of those before it.
fn all_decks() -> u64 {
    (1..=LAST).fold(0, |hash, number| linked(shuffle::deck_of(number), hash))
}

fn main(rt: HostRuntime) -> io::Result<()> {
    for number in CHOSEN {
        hand(&rt, number)?;
    }
    println!(rt; "{:016x}", all_decks())
}
