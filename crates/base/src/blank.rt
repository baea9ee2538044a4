// Lent memory cleared.
ghost use Rattle.std.specs.Prelude.{All};

// Every place becomes its type's default: of bytes and words, whatever their width, that is 0.
pub fn clear<T: Copy + Default>(s: &mut [T])
    ensures { All T.is_default s.new }
{
    for word in 0..s.len() {
        s[word] = T::default();
    }
}
