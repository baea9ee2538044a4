// Reads board images and decks from standard input and writes a line about each, for comparison with the original:
// its input and the output that is expected are the original's (compare/src/oracle_boards.rs).
#![tactic(auto)]

use saying::Spaced;
use std::io;

// An image after a byte 1, a deck of 52 after a byte 2.
#[derive(Clone, Copy)]
enum Item<'a> {
    Image(&'a [u8]),
    Deck(&'a [u8]),
}

impl<'a> framed::Item<'a> for Item<'a> {
    fn take(bytes: &mut &'a [u8]) -> Option<Item<'a>> {
        match bytes.split_off_first()? {
            1 => framed::with_count(bytes).map(Item::Image),
            2 => bytes.split_off(..52).map(Item::Deck),
            _ => None,
        }
    }
}

// The line about a board: the plain answers, or a refusal by its number.
fn of_image(rt: &impl Print, image: &[u8]) -> io::Result<()> {
    match intake::image::read(image) {
        Ok(b) => {
            print!(rt; "{} ", Spaced(&saying::tops(b)))?;
            print!(rt; "{} ", Spaced(&saying::cells(b)))?;
            print!(rt; "{} ", Spaced(&saying::home(b)))?;
            println!(rt; "{}", Spaced(&saying::totals(b)))
        }
        Err(why) => println!(rt; "{}", saying::refusal(why)),
    }
}

// The line about a deck: its columns, or a refusal by its number.
fn of_deck(rt: &impl Print, deck: &[u8]) -> io::Result<()> {
    match intake::deal::deal(deck) {
        Ok(b) => {
            for (codes, _) in saying::columns(&b) {
                print!(rt; "{} |", Spaced(codes))?;
            }
            println!(rt)
        }
        Err(why) => println!(rt; "{}", saying::refusal(why)),
    }
}

fn main(rt: HostRuntime) -> io::Result<()> {
    let mut room = [0; framed::MOST];
    let n = taking::read_full(&mut rt.stdin(), &mut room)?;
    for item in framed::items_in::<Item>(&room[..n]) {
        match item {
            Item::Image(image) => of_image(&rt, image)?,
            Item::Deck(deck) => of_deck(&rt, deck)?,
        }
    }
    Ok(())
}
