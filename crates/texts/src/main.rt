// Feeds the text of oneboard the inputs that stand on standard input, each after a two-byte count, the higher byte
// first, and writes each text, and a line of two dashes after it.
#![tactic(auto)]

use std::io;

fn text(rt: &impl Print, image: &[u8]) -> io::Result<()> {
    let mut out = [0u8; 4096];
    let m = onetext::judge_image(image, &mut out);
    rt.write_all(&out[..m])
}

fn main(rt: HostRuntime) -> io::Result<()> {
    let mut room = [0; framed::MOST];
    let n = taking::read_full(&mut rt.stdin(), &mut room)?;
    for image in framed::items_in::<&[u8]>(&room[..n]) {
        text(&rt, image)?;
        println!(rt; "--")?;
    }
    Ok(())
}
