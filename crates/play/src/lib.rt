// Playing a move on a board record (after freecell/board.rs, `FreeCellMove::apply`, changed: NOTICE).
#![tactic(auto)]

ghost use Rattle.std.specs.Prelude.{◌≡◌, true, ◌+◌, ◌-◌, ◌≤◌, ◌<◌, length, get_or, set};
ghost use Rattle.card.specs.Card.{is_card};
ghost use Rattle.card.specs.Suit.{suit_number};
ghost use Rattle.board.specs.Record.{shown, laid, room, tableau_room};
ghost use Rattle.board.specs.Inner.{GoodColumns, GoodPiles};
ghost use Rattle.moves.specs.Play.{after_move};
ghost use Rattle.play.specs.Change.{Becomes, Cleared, Copied, Lays, Drops, Doubles, Ready};

pub mod rule;

use board::{Board, CODES, ROOM};
use card::{Card, Suit};
use moves::Move;

// One card more on a column.
fn lay(counts: &mut [u8; 8], tableau: &mut [u8; CODES], i: usize, code: u8)
    requires good_columns { GoodColumns counts.old tableau.old }
    requires i_bound { i < 8 }
    requires i_bound_2 { get_or counts.old i 0 < room }
    requires code_value { is_card code ≡ true }
    ensures { Lays counts.old tableau.old counts.new tableau.new i code }
{
    let first = i * ROOM;
    tableau[first + usize::from(counts[i])] = code;
    counts[i] += 1;
}

// Zero n places from `at`.
fn clear(tableau: &mut [u8; CODES], at: usize, n: usize)
    requires tableau_len { length tableau.old ≡ tableau_room }
    requires n_bound { at + n ≤ tableau_room }
    ensures { Cleared tableau.old tableau.new at n }
{
    tableau[at..at + n].fill(0);
}

// Copy n places to others.
fn copy(tableau: &mut [u8; CODES], from: usize, to: usize, n: usize)
    requires tableau_len { length tableau.old ≡ tableau_room }
    requires n_bound { from + n ≤ tableau_room }
    requires n_bound_2 { to + n ≤ tableau_room }
    ensures { Copied tableau.old tableau.new from to n }
{
    tableau.copy_within(from..from + n, to);
}

// The top n cards of a column are gone.
fn drop_top(counts: &mut [u8; 8], tableau: &mut [u8; CODES], i: usize, n: usize)
    requires good_columns { GoodColumns counts.old tableau.old }
    requires i_bound { i < 8 }
    requires n_bound { n ≤ get_or counts.old i 0 }
    ensures { Drops counts.old tableau.old counts.new tableau.new i n }
{
    let left = usize::from(counts[i]) - n;
    let first = i * ROOM;
    let at = first + left;
    clear(tableau, at, n);
    counts[i] = left as u8;
}

// The top n cards of a column, once more on another.
fn put_run(
    counts: &mut [u8; 8],
    tableau: &mut [u8; CODES],
    source: usize,
    destination: usize,
    n: usize,
)
    requires good_columns { GoodColumns counts.old tableau.old }
    requires source_bound { source < 8 }
    requires destination_bound { destination < 8 }
    requires fact { source ≡ destination → ⊥ }
    requires n_bound { n ≤ get_or counts.old source 0 }
    requires n_bound_2 { get_or counts.old destination 0 + n ≤ room }
    ensures { Doubles counts.old tableau.old counts.new tableau.new source destination n }
{
    let deepest = usize::from(counts[source]) - n;
    let first = source * ROOM;
    let from = first + deepest;
    let count = usize::from(counts[destination]);
    let start = destination * ROOM;
    let to = start + count;
    copy(tableau, from, to, n);
    let more = count + n;
    counts[destination] = more as u8;
}

// The card's foundation with one card more.
fn go_home(foundation: &mut [u8; 4], card: Card)
    requires { GoodPiles foundation.old }
    ensures { foundation.new ≡ set foundation.old (suit_number card.suit) (get_or foundation.old (suit_number card.suit) 0 + 1) }
{
    foundation[usize::from(card.suit.number())] += 1;
}

// A suit's foundation with one card less.
fn leave_home(foundation: &mut [u8; 4], suit: Suit)
    requires good_piles { GoodPiles foundation.old }
    requires bound { 1 ≤ get_or foundation.old (suit_number suit) 0 }
    ensures { foundation.new ≡ set foundation.old (suit_number suit) (get_or foundation.old (suit_number suit) 0 - 1) }
{
    foundation[usize::from(suit.number())] -= 1;
}

// A move that is known to be allowed, played on a board that lies in four arrays.
pub fn apply_to(
    m: Move,
    cells: &mut [u8; 4],
    foundation: &mut [u8; 4],
    counts: &mut [u8; 8],
    tableau: &mut [u8; CODES],
)
    requires { Ready (laid cells.old foundation.old counts.old tableau.old) m }
    ensures { Becomes (laid cells.new foundation.new counts.new tableau.new) (after_move (shown (laid cells.old foundation.old counts.old tableau.old)) m) }
{
    match m {
        Move::TableauToTableau {
            source,
            destination,
            count,
            card: _,
        } => {
            put_run(counts, tableau, source, destination, count);
            drop_top(counts, tableau, source, count);
        }
        Move::TableauToFoundation { source, card } => {
            drop_top(counts, tableau, source, 1);
            go_home(foundation, card);
        }
        Move::TableauToFreeCell {
            source,
            cell_index,
            card,
        } => {
            drop_top(counts, tableau, source, 1);
            cells[cell_index] = card::code_of(card);
        }
        Move::FreeCellToTableau {
            cell_index,
            destination,
            card,
        } => {
            cells[cell_index] = 255;
            lay(counts, tableau, destination, card::code_of(card));
        }
        Move::FreeCellToFoundation { cell_index, card } => {
            cells[cell_index] = 255;
            go_home(foundation, card);
        }
        Move::FoundationToTableau {
            suit,
            destination,
            card,
        } => {
            leave_home(foundation, suit);
            lay(counts, tableau, destination, card::code_of(card));
        }
    }
}

// The board after a move that is known to be allowed.
pub fn apply_at(b: Board, m: Move) -> Board
    requires { Ready b m }
    ensures { Becomes result (after_move (shown b) m) }
{
    let mut cells = b.cells;
    let mut foundation = b.foundation;
    let mut counts = b.counts;
    let mut tableau = b.tableau;
    apply_to(m, &mut cells, &mut foundation, &mut counts, &mut tableau);
    Board {
        cells,
        foundation,
        counts,
        tableau,
    }
}
