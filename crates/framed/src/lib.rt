// Items that stand one after the other in some bytes, for the test programs; knows no cards.
#![tactic(auto)]

ghost use Rattle.std.specs.Prelude.{◌≡◌, ◌↔◌, ◌<◌, ◌≤◌, ⊤, List, Option, ℕ, drop, length, take, IsSome, MatchOption, OnSome};
ghost use Rattle.std.specs.Iterator.{at_most};
ghost use Rattle.framed.specs.Items.{counted_size};

use std::marker::PhantomData;

// The most bytes of standard input that a program reads.
pub const MOST: usize = 65_536;

// Takes an item that begins with its count, two bytes with the higher one first, off the bytes; none where fewer are
// left.
#[tactic(auto, unfolding(crate::specs::Items::counted_size))]
pub fn with_count<'a>(bytes: &mut &'a [u8]) -> Option<&'a [u8]>
    ensures whole { IsSome result ↔ (counted_size bytes.old.now ≤ length bytes.old.now) }
    ensures item { MatchOption result (bytes.new.now ≡ bytes.old.now)
        (λ item. item.now ≡ take (counted_size bytes.old.now) bytes.old.now) }
    ensures rest { MatchOption result (bytes.new.now ≡ bytes.old.now)
        (λ _. bytes.new.now ≡ drop (counted_size bytes.old.now) bytes.old.now) }
    ensures shorter { OnSome result (length bytes.new.now < length bytes.old.now) }
{
    let (count, _) = bytes.split_first_chunk()?;
    let size = 2 + usize::from(u16::from_be_bytes(*count));
    bytes.split_off(..size)
}

// The same without the count.
#[tactic(auto, unfolding(crate::specs::Items::counted_size))]
pub fn counted<'a>(bytes: &mut &'a [u8]) -> Option<&'a [u8]>
    ensures whole { IsSome result ↔ (counted_size bytes.old.now ≤ length bytes.old.now) }
    ensures item { MatchOption result (bytes.new.now ≡ bytes.old.now)
        (λ item. item.now ≡ drop 2 (take (counted_size bytes.old.now) bytes.old.now)) }
    ensures rest { MatchOption result (bytes.new.now ≡ bytes.old.now)
        (λ _. bytes.new.now ≡ drop (counted_size bytes.old.now) bytes.old.now) }
    ensures shorter { OnSome result (length bytes.new.now < length bytes.old.now) }
{
    let item = with_count(bytes)?;
    Some(&item[2..])
}

// What can stand in some bytes, and be taken off them.
pub trait Item<'a>: Sized {
    // Holds of the bytes before, the item that is taken off their front, and the bytes after.
    ghost taken: { List ℕ → Option Self → List ℕ → Type 0 } = { λ _ _ _. ⊤ };

    // The item in front; none where no whole one is left.
    fn take(bytes: &mut &'a [u8]) -> Option<Self>
        ensures item { taken bytes.old.now result bytes.new.now }
        ensures shorter { OnSome result (length bytes.new.now < length bytes.old.now) };
}

// The items in some bytes, one after the other.
#[derive(Drop)]
pub struct Items<'a, T> {
    bytes: &'a [u8],
    item: PhantomData<T>,
}

pub fn items_in<'a, T: Item<'a>>(bytes: &'a [u8]) -> Items<'a, T>
    ensures { result.bytes.now ≡ bytes.now }
{
    let item = PhantomData;
    Items { bytes, item }
}

impl<'a, T: Item<'a>> Iterator for Items<'a, T> {
    type Item = T;

    // Each step takes one item off the front of what is left.
    ghost next_gives = { λ s r t. T.taken s.bytes.now r t.bytes.now };

    ghost remaining = { λ s. at_most (length s.bytes.now) };

    fn next(&mut self) -> Option<T> {
        T::take(&mut self.bytes)
    }
}

impl<'a> Item<'a> for &'a [u8] {
    ghost taken = { λ before result after. (IsSome result ↔ (counted_size before ≤ length before)) × MatchOption result (after ≡ before)
        (λ item. (item.now ≡ drop 2 (take (counted_size before) before)) × (after ≡ drop (counted_size before) before)) };

    fn take(bytes: &mut &'a [u8]) -> Option<&'a [u8]> {
        counted(bytes)
    }
}
