// Reads boards with move records and a list each from standard input, and writes what the rules, the generators, one
// move and replay make of them: its input and the output that is expected are the original's
// (compare/src/oracle_moves.rs).
#![tactic(auto)]

mod answers;
mod beside;

use std::io;

// The heading of the second list at a byte 2; after any other an image, records after their count, a list after its
// count.
#[derive(Clone, Copy)]
enum Item<'a> {
    Heading,
    Board {
        image: &'a [u8],
        records: &'a [u8],
        list: &'a [u8],
    },
}

impl<'a> framed::Item<'a> for Item<'a> {
    fn take(bytes: &mut &'a [u8]) -> Option<Item<'a>> {
        if *bytes.split_off_first()? == 2 {
            return Some(Item::Heading);
        }
        let image = framed::with_count(bytes)?;
        let many = *bytes.split_off_first()?;
        let records = bytes.split_off(..5 * usize::from(many))?;
        let list = framed::counted(bytes)?;
        Some(Item::Board {
            image,
            records,
            list,
        })
    }
}

fn main(rt: HostRuntime) -> io::Result<()> {
    let mut room = [0; framed::MOST];
    let n = taking::read_full(&mut rt.stdin(), &mut room)?;
    for item in framed::items_in::<Item>(&room[..n]) {
        match item {
            Item::Heading => println!(rt; "columns over seven")?,
            Item::Board {
                image,
                records,
                list,
            } => answers::of_image(&rt, image, records, list)?,
        }
    }
    Ok(())
}
