// Why a move is refused on a board that is known to be well formed (after freecell/board.rs, `FreeCellMove::apply`,
// changed: NOTICE). Causes are looked at in the order of moves/specs/Causes.antt.
ghost use Rattle.std.specs.Prelude.{◌≡◌, true, ◌<◌, get_or};
ghost use Rattle.base.specs.Answer.{unless};
ghost use Rattle.card.specs.Card.{is_card};
ghost use Rattle.board.specs.Table.{pile};
ghost use Rattle.board.specs.Verdict.{fine};
ghost use Rattle.board.specs.Record.{shown, laid};
ghost use Rattle.board.specs.Refusal.{number_of, answered};
ghost use Rattle.board.specs.Inner.{GoodPiles, Sound};
ghost use Rattle.questions.specs.Questions.{top_of};
ghost use Rattle.moves.specs.Move.{from, to, count, is_place, sayable};
ghost use Rattle.moves.specs.declared.Move.TheVariants.{TableauToTableau};
ghost use Rattle.moves.specs.Play.{there, elsewhere, within_limit};
ghost use Rattle.moves.specs.Causes.{ruling};
ghost use Rattle.moves.specs.Inner.{landing};

use board::{CODES, ROOM, Refusal};
use card::Card;
use moves::{Move, Place};

// The top of a foundation.
pub fn home_at(foundation: &[u8; 4], i: usize) -> Option<Card>
    requires good_piles { GoodPiles foundation.now }
    requires i_bound { i < 4 }
    ensures { result ≡ top_of (pile i (get_or foundation.now i 0)) }
{
    let value = foundation[i];
    if value == 0 {
        return None;
    }
    let s = i as u8;
    let suit = card::suit_at(s);
    Some(Card { suit, value })
}

// The last card at a place.
fn top_there<'a>(
    cells: &'a [u8; 4],
    foundation: &'a [u8; 4],
    counts: &'a [u8; 8],
    tableau: &'a [u8; CODES],
    place: Place,
) -> Option<Card>
    requires sound { Sound (laid cells.now foundation.now counts.now tableau.now) }
    requires place_value { is_place place ≡ true }
    ensures { result ≡ top_of (there (shown (laid cells.now foundation.now counts.now tableau.now)) place) }
{
    match place {
        Place::Column(i) => questions::top_at(counts, tableau, i),
        Place::Cell(i) => questions::cell_at(cells, i),
        Place::Home(s) => home_at(foundation, s),
    }
}

// A test that is passed, or why not.
fn ruled(ok: bool, why: Refusal) -> Result<(), Refusal>
    ensures { answered result ≡ unless ok (number_of why) fine }
{
    if ok {
        return Ok(());
    }
    Err(why)
}

// The place takes a card: else 38, 39 or 40.
fn put_there<'a>(
    cells: &'a [u8; 4],
    foundation: &'a [u8; 4],
    counts: &'a [u8; 8],
    tableau: &'a [u8; CODES],
    place: Place,
    code: u8,
) -> Result<(), Refusal>
    requires sound { Sound (laid cells.now foundation.now counts.now tableau.now) }
    requires place_value { is_place place ≡ true }
    requires code_value { is_card code ≡ true }
    ensures { answered result ≡ landing (shown (laid cells.now foundation.now counts.now tableau.now)) place code }
{
    match place {
        Place::Column(i) => ruled(rules::fit_at(counts, tableau, i, code), Refusal::NoFit),
        Place::Cell(i) => ruled(cells[i] == 255, Refusal::CellFull),
        Place::Home(s) => ruled(rules::home_takes(foundation, code), Refusal::NotNext),
    }
}

// A run from one column to another: 30, 33, 35, 34, 36, 37, 38.
fn run_ruled<'a>(
    cells: &'a [u8; 4],
    foundation: &'a [u8; 4],
    counts: &'a [u8; 8],
    tableau: &'a [u8; CODES],
    source: usize,
    destination: usize,
    count: usize,
    card: Card,
) -> Result<(), Refusal>
    requires sound { Sound (laid cells.now foundation.now counts.now tableau.now) }
    requires card_value { sayable (TableauToTableau source destination count card) ≡ true }
    ensures { answered result ≡ ruling (shown (laid cells.now foundation.now counts.now tableau.now)) (TableauToTableau source destination count card) }
{
    if source == destination {
        return Err(Refusal::OutOfRange);
    }
    let lie = usize::from(counts[source]);
    if lie == 0 {
        return Err(Refusal::SourceEmpty);
    }
    if lie < count {
        return Err(Refusal::TooMany);
    }
    let first = source * ROOM;
    let deepest = first + (lie - count);
    let code = card::code_of(card);
    if tableau[deepest] != code {
        return Err(Refusal::OtherCard);
    }
    if rules::most_at(cells, counts, tableau, destination) < count {
        return Err(Refusal::OverLimit);
    }
    if rules::run_at(counts, tableau, source) < count {
        return Err(Refusal::NoRun);
    }
    ruled(
        rules::fit_at(counts, tableau, destination, code),
        Refusal::NoFit,
    )
}

// A move of one card: 33, 34, then 38, 39 or 40.
fn one_ruled<'a>(
    cells: &'a [u8; 4],
    foundation: &'a [u8; 4],
    counts: &'a [u8; 8],
    tableau: &'a [u8; CODES],
    m: Move,
) -> Result<(), Refusal>
    requires sound { Sound (laid cells.now foundation.now counts.now tableau.now) }
    requires m_value { sayable m ≡ true }
    requires m_value_2 { count m ≡ 1 }
    requires m_value_3 { elsewhere (from m) (to m) ≡ true }
    requires m_value_4 { within_limit (shown (laid cells.now foundation.now counts.now tableau.now)) (from m) (to m) (count m) ≡ true }
    ensures { answered result ≡ ruling (shown (laid cells.now foundation.now counts.now tableau.now)) m }
{
    let Some(top) = top_there(cells, foundation, counts, tableau, moves::source_of(m)) else {
        return Err(Refusal::SourceEmpty);
    };
    let code = card::code_of(moves::deepest_of(m));
    if card::code_of(top) != code {
        return Err(Refusal::OtherCard);
    }
    put_there(
        cells,
        foundation,
        counts,
        tableau,
        moves::target_of(m),
        code,
    )
}

// What is said of a move that can be said: allowed, or the first cause against it.
pub fn ruled_at<'a>(
    cells: &'a [u8; 4],
    foundation: &'a [u8; 4],
    counts: &'a [u8; 8],
    tableau: &'a [u8; CODES],
    m: Move,
) -> Result<(), Refusal>
    requires sound { Sound (laid cells.now foundation.now counts.now tableau.now) }
    requires m_value { sayable m ≡ true }
    ensures { answered result ≡ ruling (shown (laid cells.now foundation.now counts.now tableau.now)) m }
{
    match m {
        Move::TableauToTableau {
            source,
            destination,
            count,
            card,
        } => run_ruled(
            cells,
            foundation,
            counts,
            tableau,
            source,
            destination,
            count,
            card,
        ),
        _ => one_ruled(cells, foundation, counts, tableau, m),
    }
}
