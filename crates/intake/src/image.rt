// Reading a board image. Codes and repeats are verdict_on on what the image shows; a record is filled only from an image
// that is accepted.
ghost use Rattle.std.specs.Prelude.{◌≡◌, ◌+◌, ◌*◌, ◌≤◌, ◌<◌, length, take, drop};
ghost use Rattle.base.specs.Words.{listed};
ghost use Rattle.board.specs.Refusal.{answered};
ghost use Rattle.intake.specs.Image.{image_read, bodied};
ghost use Rattle.board.specs.Inner.{Parts};
ghost use Rattle.intake.specs.Inside.{Outlined, part_code};
ghost use Rattle.board.specs.Record.{tableau_room};

use board::{Board, CODES, ROOM, Refusal, verdict};
use std::array;

// Where an image's columns lie: the first code of each, and how many.
#[derive(Clone, Copy)]
struct Outline {
    pub starts: [usize; 8],
    pub counts: [u8; 8],
}

// None where the last column does not end where the image does.
fn find_columns(image: &[u8]) -> Option<Outline>
    requires { 11 ≤ length image.now }
    ensures { Outlined image.now result }
{
    let mut starts = [0usize; 8];
    let mut counts = [0u8; 8];
    let mut at = 11;
    for i in 0..8 {
        if image.len() <= at {
            return None;
        }
        let count = image[at];
        let start = at + 1;
        let end = start + usize::from(count);
        if image.len() < end {
            return None;
        }
        starts[i] = start;
        counts[i] = count;
        at = end;
    }
    if at < image.len() {
        return None;
    }
    Some(Outline { starts, counts })
}

fn four_at(image: &[u8], at: usize) -> [u8; 4]
    requires { at + 4 ≤ length image.now }
    ensures { result ≡ take 4 (drop at image.now) }
{
    let first = image[at];
    let second = image[at + 1];
    let third = image[at + 2];
    let fourth = image[at + 3];
    [first, second, third, fourth]
}

// The code at one place of the flat array, 0 where its column has no such row.
fn code_at<'a>(starts: &'a [usize; 8], counts: &'a [u8; 8], codes: &'a [u8], p: usize) -> u8
    requires parts { Parts starts.now counts.now codes.now }
    requires p_lt_tableau_room { p < tableau_room }
    ensures { result ≡ part_code starts.now counts.now codes.now p }
{
    let i = p / ROOM;
    let row = p % ROOM;
    let count = usize::from(counts[i]);
    if row < count {
        let start = starts[i];
        let at = start + row;
        return codes[at];
    }
    0
}

// The flat array of the eight columns.
fn fill<'a>(starts: &'a [usize; 8], counts: &'a [u8; 8], codes: &'a [u8]) -> [u8; CODES]
    requires { Parts starts.now counts.now codes.now }
    ensures { result ≡ listed tableau_room (part_code starts.now counts.now codes.now) }
{
    array::from_fn(|p| code_at(starts, counts, codes, p))
}

// 12, 13, 14, 15, or the board, once the length and the version are right.
fn read_body(image: &[u8]) -> Result<Board, Refusal>
    requires { 3 ≤ length image.now }
    ensures { answered result ≡ bodied (drop 3 image.now) }
{
    if image.len() < 11 {
        return Err(Refusal::WrongShape);
    }
    let cells = four_at(image, 3);
    let foundation = four_at(image, 7);
    if !verdict::within(13, &foundation) {
        return Err(Refusal::WrongShape);
    }
    let Some(lie) = find_columns(image) else {
        return Err(Refusal::WrongShape);
    };
    let starts = lie.starts;
    let counts = lie.counts;
    verdict::verdict_on(&cells, &foundation, &starts, &counts, image)?;
    let tableau = fill(&starts, &counts, image);
    Ok(Board {
        cells,
        foundation,
        counts,
        tableau,
    })
}

// A two-byte count, the higher byte first.
fn big_endian(high: u8, low: u8) -> usize
    ensures { result ≡ high * 256 + low }
{
    usize::from(u16::from_be_bytes([high, low]))
}

// 10, 11, 12, 13, 14, 15 in that order, or the board.
pub fn read(image: &[u8]) -> Result<Board, Refusal>
    ensures { answered result ≡ image_read image.now }
{
    let n = image.len();
    if n < 2 {
        return Err(Refusal::WrongLength);
    }
    let declared = big_endian(image[0], image[1]);
    if declared != n - 2 {
        return Err(Refusal::WrongLength);
    }
    if n < 3 {
        return Err(Refusal::WrongVersion);
    }
    if image[2] != 1 {
        return Err(Refusal::WrongVersion);
    }
    read_body(image)
}
