// Reads board images from standard input and writes their features, scores, token, safe play and candidates, for
// comparison with the original (compare/src/oracle_scores.rs).
#![tactic(auto)]

use board::{Board, Refusal};
use card::Card;
use moves::Move;
use saying::Hex;
use std::io;

// What lent room holds before a call.
const MARK: u8 = 7;

// The heading of the second list at a byte 3, an image after any other.
#[derive(Clone, Copy)]
enum Item<'a> {
    Heading,
    Image(&'a [u8]),
}

impl<'a> framed::Item<'a> for Item<'a> {
    fn take(bytes: &mut &'a [u8]) -> Option<Item<'a>> {
        match bytes.split_off_first()? {
            3 => Some(Item::Heading),
            _ => framed::with_count(bytes).map(Item::Image),
        }
    }
}

fn score(answer: Result<i64, Refusal>) -> i64 {
    answer.unwrap_or_else(|why| i64::from(board::number(why)))
}

fn measured(rt: &impl Print, b: Board) -> io::Result<()> {
    match score::features_of(b) {
        Ok(f) => {
            print!(rt; "{} {} {} ", f.home, f.immediate, f.blocked)?;
            print!(rt; "{} {} {} {} ", f.imbalance, f.used, f.empty, f.longest)
        }
        Err(why) => print!(rt; "{}", saying::refusal(why)),
    }
}

fn scores(rt: &impl Print, b: Board) -> io::Result<()> {
    let heuristic = score(score::heuristic_of(b));
    let progress = score(score::progress_of(b));
    println!(rt; "{heuristic} {progress}")
}

// The token in some room, or why not, and how many bytes of the room are as they were.
fn token(rt: &impl Print, b: Board, out: &mut [u8]) -> io::Result<()> {
    match score::progress_token(b, out) {
        Ok(n) => {
            let (text, rest) = out.split_at(n.min(out.len()));
            rt.write_all(text)?;
            println!(rt; " {}", saying::same(rest, &MARK))
        }
        Err(why) => println!(rt; "{} {}", saying::refusal(why), saying::same(out, &MARK)),
    }
}

// The token with room to spare, with just enough, and with a byte too little.
fn tokens(rt: &impl Print, b: Board) -> io::Result<()> {
    token(rt, b, &mut [MARK; 40])?;
    token(rt, b, &mut [MARK; 32])?;
    token(rt, b, &mut [MARK; 31])
}

// A digit 1 for each card that is safe.
fn safe_cards(rt: &impl Print, b: Board) -> io::Result<()> {
    for code in saying::pack() {
        print!(rt; "{}", saying::yes(safe::is_safe(b, code)))?;
    }
    println!(rt)
}

// The record of a move home.
fn home(rt: &impl Print, kind: u8, from: usize, card: Card) -> io::Result<()> {
    let suit = card.suit.number();
    println!(rt;
        "{kind:02x}{from:02x}{suit:02x}01{:02x}",
        saying::code(card)
    )
}

fn first_safe(rt: &impl Print, b: Board) -> io::Result<()> {
    match safe::first_safe_move(b) {
        Ok(Some(Move::TableauToFoundation { source, card })) => home(rt, 2, source, card),
        Ok(Some(Move::FreeCellToFoundation { cell_index, card })) => home(rt, 5, cell_index, card),
        Ok(Some(_)) => println!(rt; "00"),
        Ok(None) => println!(rt; "-"),
        Err(why) => println!(rt; "{}", saying::refusal(why)),
    }
}

// The moves of the chain, and the signature of the board after it.
fn chain(rt: &impl Print, b: Board) -> io::Result<()> {
    let (moves, after) = safe::safe_chain(b).map_or(
        (0, b),
        |chained| (chained.moves, chained.board),
    );
    print!(rt; "{moves} ")?;
    match signature::signature_of(after) {
        Ok(n) => println!(rt; "{n:016x}"),
        Err(why) => println!(rt; "{}", saying::refusal(why)),
    }
}

// How many candidates, how many bytes of the room after their records are as they were; then the candidates in order,
// each with its priority.
fn candidates(rt: &impl Print, b: Board) -> io::Result<()> {
    let mut out = [MARK; 4190];
    match ordered::candidates_of(b, &mut out) {
        Ok(n) => {
            let (records, rest) = saying::records(&out, n);
            println!(rt; "{n} {}", saying::same(rest, &MARK))?;
            for record in records.chunks(5) {
                let priority = score(priority::priority_of(b, record));
                println!(rt; "{} {priority}", Hex(record))?;
            }
            Ok(())
        }
        Err(why) => println!(rt; "{}", saying::refusal(why)),
    }
}

fn of_board(rt: &impl Print, b: Board) -> io::Result<()> {
    measured(rt, b)?;
    scores(rt, b)?;
    tokens(rt, b)?;
    safe_cards(rt, b)?;
    first_safe(rt, b)?;
    chain(rt, b)?;
    candidates(rt, b)
}

fn of_image(rt: &impl Print, image: &[u8]) -> io::Result<()> {
    match intake::image::read(image) {
        Ok(b) => of_board(rt, b),
        Err(why) => println!(rt; "{}", saying::refusal(why)),
    }
}

fn main(rt: HostRuntime) -> io::Result<()> {
    let mut room = [0; framed::MOST];
    let n = taking::read_full(&mut rt.stdin(), &mut room)?;
    for item in framed::items_in::<Item>(&room[..n]) {
        match item {
            Item::Heading => println!(rt; "columns over seven")?,
            Item::Image(image) => of_image(&rt, image)?,
        }
    }
    Ok(())
}
