// Reads a board image on standard input and writes what onetext makes of it: the token, the answer, the moves.
#![tactic(auto)]

use std::io;

// The longest image has 1,024 bytes; one more tells that the input is longer.
const MOST: usize = 1025;

fn main(rt: HostRuntime) -> io::Result<()> {
    let mut image = [0; MOST];
    let read = taking::read_full(&mut rt.stdin(), &mut image)?;
    let mut out = [0; 4096];
    let n = onetext::judge_image(&image[..read], &mut out);
    rt.write_all(&out[..n])
}
