// Reads octets and board images from standard input and writes the FNV-1a hash or the signature of each, for comparison
// with published hashes and with the original's signatures (compare/src/oracle_signatures.rs).
#![tactic(auto)]

use std::io;

// An image after a byte 1, the heading of the second list at a byte 3, octets after their count and any other byte.
#[derive(Clone, Copy)]
enum Item<'a> {
    Image(&'a [u8]),
    Heading,
    Octets(&'a [u8]),
}

impl<'a> framed::Item<'a> for Item<'a> {
    fn take(bytes: &mut &'a [u8]) -> Option<Item<'a>> {
        match bytes.split_off_first()? {
            1 => framed::with_count(bytes).map(Item::Image),
            3 => Some(Item::Heading),
            _ => framed::counted(bytes).map(Item::Octets),
        }
    }
}

fn of_image(rt: &impl Print, image: &[u8]) -> io::Result<()> {
    match intake::image::read(image).and_then(signature::signature_of) {
        Ok(n) => println!(rt; "{n:016x}"),
        Err(why) => println!(rt; "{}", saying::refusal(why)),
    }
}

fn main(rt: HostRuntime) -> io::Result<()> {
    let mut room = [0; framed::MOST];
    let n = taking::read_full(&mut rt.stdin(), &mut room)?;
    for item in framed::items_in::<Item>(&room[..n]) {
        match item {
            Item::Image(image) => of_image(&rt, image)?,
            Item::Heading => println!(rt; "columns over seven")?,
            Item::Octets(octets) => println!(rt; "{:016x}", signature::fnv1a(octets))?,
        }
    }
    Ok(())
}
