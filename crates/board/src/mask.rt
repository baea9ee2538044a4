// The cards seen so far as one number with a bit a card. A repeat is found as it comes; with none found, 52 ones say
// that no card is missing.
ghost use Rattle.std.specs.Prelude.{◌≡◌, true, ◌∷◌, [], ◌<◌, ◌≤◌, ◌^◌};
ghost use Rattle.base.specs.Words.{all, concat, listed};
ghost use Rattle.card.specs.Card.{is_card};
ghost use Rattle.board.specs.Table.{pile, piles, held};
ghost use Rattle.board.specs.Verdict.{is_cell};
ghost use Rattle.board.specs.Inner.{Marks, GoodCells, GoodPiles, Parts, part_at};

// One more card.
fn mark(seen: u64, code: u8) -> Option<u64>
    requires seen_bound { seen < 2 ^ 52 }
    requires code_value { is_card code ≡ true }
    ensures { Marks seen (code ∷ []) result }
{
    let place = card::place_of(code) as u64;
    let above = seen >> place;
    if above % 2 == 1 {
        return None;
    }
    let bit = 1u64 << place;
    Some(seen + bit)
}

// Each card of a list.
pub fn mark_all(seen: u64, s: &[u8]) -> Option<u64>
    requires seen_bound { seen < 2 ^ 52 }
    requires s_value { all is_card s.now ≡ true }
    ensures { Marks seen s.now result }
{
    let mut cards = seen;
    for code in s {
        cards = mark(cards, *code)?;
    }
    Some(cards)
}

// The card in a cell, if there is one.
fn mark_cell(seen: u64, code: u8) -> Option<u64>
    requires seen_bound { seen < 2 ^ 52 }
    requires code_value { is_cell code ≡ true }
    ensures { Marks seen (held (code ∷ [])) result }
{
    if code == 255 {
        return Some(seen);
    }
    mark(seen, code)
}

// The cards in the cells.
pub fn mark_cells(seen: u64, cells: &[u8; 4]) -> Option<u64>
    requires seen_bound { seen < 2 ^ 52 }
    requires good_cells { GoodCells cells.now }
    ensures { Marks seen (held cells.now) result }
{
    let mut cards = seen;
    for code in cells {
        cards = mark_cell(cards, *code)?;
    }
    Some(cards)
}

// The cards of one foundation pile.
fn mark_pile(seen: u64, suit: u8, count: u8) -> Option<u64>
    requires seen_bound { seen < 2 ^ 52 }
    requires suit_bound { suit < 4 }
    requires count_bound { count ≤ 13 }
    ensures { Marks seen (pile suit count) result }
{
    let mut cards = seen;
    for v in 0..count {
        let value = v + 1;
        let high = value * 16;
        cards = mark(cards, high + suit)?;
    }
    Some(cards)
}

// The cards of all four piles.
pub fn mark_piles(seen: u64, foundation: &[u8; 4]) -> Option<u64>
    requires seen_bound { seen < 2 ^ 52 }
    requires good_piles { GoodPiles foundation.now }
    ensures { Marks seen (piles foundation.now) result }
{
    let mut cards = seen;
    for s in 0..4 {
        let suit = s as u8;
        cards = mark_pile(cards, suit, foundation[s])?;
    }
    Some(cards)
}

// The cards of the eight columns.
pub fn mark_columns<'a>(
    seen: u64,
    starts: &'a [usize; 8],
    counts: &'a [u8; 8],
    codes: &'a [u8],
) -> Option<u64>
    requires seen_bound { seen < 2 ^ 52 }
    requires parts { Parts starts.now counts.now codes.now }
    requires codes_value { all is_card (concat (listed 8 (part_at starts.now counts.now codes.now))) ≡ true }
    ensures { Marks seen (concat (listed 8 (part_at starts.now counts.now codes.now))) result }
{
    let mut cards = seen;
    for i in 0..8 {
        let start = starts[i];
        let end = start + usize::from(counts[i]);
        cards = mark_all(cards, &codes[start..end])?;
    }
    Some(cards)
}
