// Bytes written into lent room.
ghost use Rattle.std.specs.Prelude.{◌+◌, ◌≤◌, length};
ghost use Rattle.base.specs.Put.{Puts};

// Some bytes at a place.
pub fn put_bytes(out: &mut [u8], at: usize, s: &[u8]) -> usize
    requires { at + length s.now ≤ length out.old }
    ensures { Puts out.old out.new at result s.now }
{
    // byte by byte: with `copy_from_slice` the archive for C wants memmove from outside
    for k in 0..s.len() {
        out[at + k] = s[k];
    }
    at + s.len()
}
