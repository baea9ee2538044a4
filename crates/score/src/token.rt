// The progress token, written into lent room (after freecell/solver.rs, `progress_token`, changed: NOTICE).
ghost use Rattle.std.specs.Prelude.{◌≡◌, ◌++◌, ◌+◌, ◌<◌, ◌≤◌, length};
ghost use Rattle.features.specs.Features.{Bounded};
ghost use Rattle.score.specs.Token.{decimal, token_of};
ghost use Rattle.base.specs.Put.{Puts};

use base::put::put_bytes;
use features::Features;

// A decimal digit.
fn digit(n: usize) -> u8
    requires { n < 10 }
    ensures { result ≡ 48 + n }
{
    b'0' + n as u8
}

// A number of at most three digits, at a place.
pub fn put_number(out: &mut [u8], at: usize, n: usize) -> usize
    requires n_bound { n < 1000 }
    requires n_in_bounds { at + length (decimal n) ≤ length out.old }
    ensures { Puts out.old out.new at result (decimal n) }
{
    let digits = [digit(n / 100), digit(n / 10 % 10), digit(n % 10)];
    let leading = match n {
        0..=9 => 2,
        10..=99 => 1,
        _ => 0,
    };
    put_bytes(out, at, &digits[leading..])
}

// A label and its number.
pub fn put(out: &mut [u8], at: usize, label: &[u8], n: usize) -> usize
    requires n_bound { n < 1000 }
    requires n_in_bounds { at + length (label.now ++ decimal n) ≤ length out.old }
    ensures { Puts out.old out.new at result (label.now ++ decimal n) }
{
    let after = put_bytes(out, at, label);
    put_number(out, after, n)
}

// The token of some features, at the start of the room; answers how many bytes it has.
pub fn token_at(f: Features, out: &mut [u8]) -> usize
    requires bounded { Bounded f }
    requires f_in_bounds { length (token_of f) ≤ length out.old }
    ensures { Puts out.old out.new 0 result (token_of f) }
{
    let home = put(out, 0, b"f:", f.home);
    let immediate = put(out, home, b"|i:", f.immediate);
    let used = put(out, immediate, b"|u:", f.used);
    let empty = put(out, used, b"|e:", f.empty);
    let longest = put(out, empty, b"|r:", f.longest);
    let blocked = put(out, longest, b"|b:", f.blocked);
    put(out, blocked, b"|m:", f.imbalance)
}
