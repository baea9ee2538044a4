// Tries the refusals of SCOPE.md that a board can meet, and the plain questions. Standard input is a script of the
// trials, whose first lines say how to read it; a trial writes its label and what came of it.
#![tactic(auto)]

mod kinds;
mod script;

use script::MOST;
use std::io;
use std::io::Read;

// A trial: its kind, its label, and the words of what is changed in the bytes of the base. One of more bytes than the
// room holds is passed over.
fn tried(rt: &impl Print, kind: u8, base: &[u8], line: &[u8]) -> io::Result<()> {
    let mut parts = line.splitn(3, |b| *b == b' ').skip(1);
    let label = parts.next().unwrap_or(&[]);
    let words = parts.next().unwrap_or(&[]);
    let mut room = [0u8; MOST];
    let count = script::lay(&mut room, 0, base);
    let count = script::lay(&mut room, count, words);
    match room.get(..count) {
        Some(bytes) => kinds::tried(rt, kind, label, script::asked(words), bytes),
        None => Ok(()),
    }
}

fn main(rt: HostRuntime) -> io::Result<()> {
    // A line of zeros, which says nothing, follows a script that is shorter.
    let mut input = rt.stdin().chain(b"\n".as_slice()).chain(io::repeat(0));
    let mut script = [0u8; MOST];
    input.read_exact(&mut script)?;
    let mut base: &[u8] = &[];
    // A line is a base, a trial of the kind that its first letter tells, or a remark.
    for line in script.split(|b| *b == b'\n') {
        match line {
            [b'=', ..] => base = line,
            [kind @ b'a'.., ..] => tried(&rt, *kind, base, line)?,
            _ => {}
        }
    }
    Ok(())
}
