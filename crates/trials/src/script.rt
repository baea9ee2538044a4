// The words of the script, and the bytes that they lay down. No script is refused: any byte is a digit, by its lower
// four bits, and words that say nothing are passed over.

// The most bytes that a script has, or a trial.
pub(crate) const MOST: usize = 65_536;

// The next byte goes to a place, so many bytes are left, or a byte is put so many times.
#[derive(Clone, Copy)]
enum Word {
    Go(usize),
    Leave(usize),
    Put(u8, usize),
}

// One too large for its type stays beyond every room.
fn decimal(digits: &[u8]) -> usize {
    digits.iter().fold(0usize, |n, letter| {
        n.saturating_mul(10)
            .saturating_add(usize::from(*letter % 16))
    })
}

fn hex_digit(letter: u8) -> u8 {
    let digit = letter % 16;
    if letter < b'a' {
        digit
    } else {
        (digit + 9) % 16
    }
}

fn hex(high: u8, low: u8) -> u8 {
    (hex_digit(high) << 4) | hex_digit(low)
}

// None where the letters say nothing of the bytes, as a question's.
fn word_of(letters: &[u8]) -> Option<Word> {
    match letters {
        [] | [_] | [b'?', ..] => None,
        [b'@', place @ ..] => Some(Word::Go(decimal(place))),
        [b'#', count @ ..] => Some(Word::Leave(decimal(count))),
        [high, low] | [high, low, _] => Some(Word::Put(hex(*high, *low), 1)),
        [high, low, _, times @ ..] => Some(Word::Put(hex(*high, *low), decimal(times))),
    }
}

// Lays down what the words say, over bytes that lie there, and answers how many there are then, which may be more than
// the room holds: bytes beyond it are lost. One put from farther out, or more often than it holds, is passed over.
pub(crate) fn lay(room: &mut [u8; MOST], count: usize, words: &[u8]) -> usize {
    let mut at = 0;
    let mut count = count;
    for letters in words.split(|b| *b == b' ') {
        match word_of(letters) {
            Some(Word::Go(place)) => at = place,
            Some(Word::Leave(left)) => count = left,
            Some(Word::Put(byte, times)) if at <= MOST && times <= MOST => {
                let end = at + times;
                room[at..end.min(MOST)].fill(byte);
                at = end;
                count = count.max(end);
            }
            _ => {}
        }
    }
    count
}

// The place that the words ask about: the number after the first `?` in them, 0 where there is none.
pub(crate) fn asked(words: &[u8]) -> usize {
    let after = words.splitn(2, |b| *b == b'?').nth(1).unwrap_or(&[]);
    after.split(|b| *b == b' ').next().map_or(0, decimal)
}
