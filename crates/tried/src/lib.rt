// The moves that are tried, as records one after the other (after freecell/solver.rs, `find_all_moves`, changed: NOTICE).
#![tactic(auto)]

ghost use Rattle.std.specs.Prelude.{◌≡◌, true, ◌∷◌, [], ◌++◌, ◌+◌, ◌*◌, ◌≤◌, length};
ghost use Rattle.std.specs.List.{flat_map};
ghost use Rattle.board.specs.Record.{shown, laid};
ghost use Rattle.board.specs.Inner.{Sound};
ghost use Rattle.moves.specs.Record.{possible, move_of};
ghost use Rattle.play.specs.Change.{Ready};
ghost use Rattle.generate.specs.Found.{found};
ghost use Rattle.moves.specs.Written.{Adds};
ghost use Rattle.generate.specs.declared.Way.TheVariants.{ColumnToColumn, ColumnToCell, CellToColumn, HomeToColumn};
ghost use Rattle.features.specs.Features.{features_of};
ghost use Rattle.safe.specs.Safe.{chosen, is_safe, home_moves};
ghost use Rattle.candidates.specs.Candidates.{better, worthwhile, late_moves, tried};
ghost use Rattle.candidates.specs.Inner.{tried_room, meets, moves_in, Holds};

use board::CODES;
use candidates::Test;
use features::Features;
use generate::Way;
use moves::Move;
use score::weights;

// Features change for the better.
fn is_better(before: Features, after: Features) -> bool
    ensures { result ≡ better before after }
{
    if before.immediate < after.immediate {
        return true;
    }
    if after.blocked < before.blocked {
        return true;
    }
    before.longest < after.longest
}

// A move home is of a safe card.
fn is_safe<'a>(
    cells: &'a [u8; 4],
    foundation: &'a [u8; 4],
    counts: &'a [u8; 8],
    tableau: &'a [u8; CODES],
    m: Move,
) -> bool
    requires { Ready (laid cells.now foundation.now counts.now tableau.now) m }
    ensures { result ≡ is_safe (shown (laid cells.now foundation.now counts.now tableau.now)) m }
{
    let code = card::code_of(moves::deepest_of(m));
    safe::is_safe_at(foundation, code)
}

// A move meets a test: a value and no closure, of which `choose` could say what it keeps by a ghost value alone.
fn meets_test<'a>(
    test: Test,
    cells: &'a [u8; 4],
    foundation: &'a [u8; 4],
    counts: &'a [u8; 8],
    tableau: &'a [u8; CODES],
    before: Features,
    m: Move,
) -> bool
    requires ready { Ready (laid cells.now foundation.now counts.now tableau.now) m }
    requires before_value { before ≡ features_of (shown (laid cells.now foundation.now counts.now tableau.now)) }
    ensures { result ≡ meets test (shown (laid cells.now foundation.now counts.now tableau.now)) m }
{
    match test {
        Test::Safe => is_safe(cells, foundation, counts, tableau, m),
        Test::Unsafe => !is_safe(cells, foundation, counts, tableau, m),
        Test::Worthwhile => is_better(
            before,
            priority::features_after(cells, foundation, counts, tableau, m),
        ),
    }
}

// One record is written on if its move meets the test.
fn keep<'a>(
    test: Test,
    cells: &'a [u8; 4],
    foundation: &'a [u8; 4],
    counts: &'a [u8; 8],
    tableau: &'a [u8; CODES],
    before: Features,
    bytes: &[u8],
    out: &mut [u8],
    n: usize,
) -> usize
    requires ready { Ready (laid cells.now foundation.now counts.now tableau.now) (move_of bytes.now) }
    requires before_value { before ≡ features_of (shown (laid cells.now foundation.now counts.now tableau.now)) }
    requires bytes_value { possible bytes.now ≡ true }
    requires bytes_in_bounds { (n + length (chosen (meets test (shown (laid cells.now foundation.now counts.now tableau.now))) (move_of bytes.now ∷ []))) * 5 ≤ length out.old }
    ensures { Adds out.old out.new n result (chosen (meets test (shown (laid cells.now foundation.now counts.now tableau.now))) (move_of bytes.now ∷ [])) }
{
    let Some(m) = moves::decode(bytes) else {
        return n;
    };
    if meets_test(test, cells, foundation, counts, tableau, before, m) {
        return moves::write(out, n, m);
    }
    n
}

// Of n records those whose moves meet the test.
fn choose<'a>(
    test: Test,
    cells: &'a [u8; 4],
    foundation: &'a [u8; 4],
    counts: &'a [u8; 8],
    tableau: &'a [u8; CODES],
    before: Features,
    list: &[u8],
    n: usize,
    out: &mut [u8],
    at: usize,
) -> usize
    requires holds { Holds (laid cells.now foundation.now counts.now tableau.now) list.now n }
    requires before_value { before ≡ features_of (shown (laid cells.now foundation.now counts.now tableau.now)) }
    requires n_in_bounds { (at + length (chosen (meets test (shown (laid cells.now foundation.now counts.now tableau.now))) (moves_in list.now n))) * 5 ≤ length out.old }
    ensures { Adds out.old out.new at result (chosen (meets test (shown (laid cells.now foundation.now counts.now tableau.now))) (moves_in list.now n)) }
{
    let mut made = at;
    for k in 0..n {
        let from = k * 5;
        made = keep(
            test,
            cells,
            foundation,
            counts,
            tableau,
            before,
            &list[from..from + 5],
            out,
            made,
        );
    }
    made
}

// The moves of some kinds, one kind after the other.
fn find_all<'a>(
    ways: &[Way],
    cells: &'a [u8; 4],
    foundation: &'a [u8; 4],
    counts: &'a [u8; 8],
    tableau: &'a [u8; CODES],
    out: &mut [u8],
    at: usize,
) -> usize
    requires sound { Sound (laid cells.now foundation.now counts.now tableau.now) }
    requires ways_in_bounds { (at + length (flat_map (found (shown (laid cells.now foundation.now counts.now tableau.now))) ways.now)) * 5 ≤ length out.old }
    ensures { Adds out.old out.new at result (flat_map (found (shown (laid cells.now foundation.now counts.now tableau.now))) ways.now) }
{
    let mut made = at;
    for way in ways {
        made = generators::find_at(*way, cells, foundation, counts, tableau, out, made);
    }
    made
}

// The moves home, the columns' before the cells'.
fn home_moves_at<'a>(
    cells: &'a [u8; 4],
    foundation: &'a [u8; 4],
    counts: &'a [u8; 8],
    tableau: &'a [u8; CODES],
    out: &mut [u8],
) -> usize
    requires sound { Sound (laid cells.now foundation.now counts.now tableau.now) }
    requires in_bounds { 60 ≤ length out.old }
    ensures { Adds out.old out.new 0 result (home_moves (shown (laid cells.now foundation.now counts.now tableau.now))) }
{
    find_all(
        &[Way::ColumnToHome, Way::CellToHome],
        cells,
        foundation,
        counts,
        tableau,
        out,
        0,
    )
}

// The moves back from a foundation that are worth it.
fn back_moves_at<'a>(
    cells: &'a [u8; 4],
    foundation: &'a [u8; 4],
    counts: &'a [u8; 8],
    tableau: &'a [u8; CODES],
    before: Features,
    out: &mut [u8],
    at: usize,
) -> usize
    requires sound { Sound (laid cells.now foundation.now counts.now tableau.now) }
    requires before_value { before ≡ features_of (shown (laid cells.now foundation.now counts.now tableau.now)) }
    requires tableau_in_bounds { (at + length (chosen (worthwhile (shown (laid cells.now foundation.now counts.now tableau.now))) (found (shown (laid cells.now foundation.now counts.now tableau.now)) HomeToColumn))) * 5 ≤ length out.old }
    ensures { Adds out.old out.new at result (chosen (worthwhile (shown (laid cells.now foundation.now counts.now tableau.now))) (found (shown (laid cells.now foundation.now counts.now tableau.now)) HomeToColumn)) }
{
    let mut list = [0u8; 160];
    let n = generators::find_at(
        Way::HomeToColumn,
        cells,
        foundation,
        counts,
        tableau,
        &mut list,
        0,
    );
    choose(
        Test::Worthwhile,
        cells,
        foundation,
        counts,
        tableau,
        before,
        &list,
        n,
        out,
        at,
    )
}

// Runs, cells to columns, columns to cells.
fn other_moves_at<'a>(
    cells: &'a [u8; 4],
    foundation: &'a [u8; 4],
    counts: &'a [u8; 8],
    tableau: &'a [u8; CODES],
    out: &mut [u8],
    at: usize,
) -> usize
    requires sound { Sound (laid cells.now foundation.now counts.now tableau.now) }
    requires tableau_in_bounds { (at + length (found (shown (laid cells.now foundation.now counts.now tableau.now)) ColumnToColumn ++ (found (shown (laid cells.now foundation.now counts.now tableau.now)) CellToColumn ++ found (shown (laid cells.now foundation.now counts.now tableau.now)) ColumnToCell))) * 5 ≤ length out.old }
    ensures { Adds out.old out.new at result (found (shown (laid cells.now foundation.now counts.now tableau.now)) ColumnToColumn ++ (found (shown (laid cells.now foundation.now counts.now tableau.now)) CellToColumn ++ found (shown (laid cells.now foundation.now counts.now tableau.now)) ColumnToCell)) }
{
    find_all(
        &[Way::ColumnToColumn, Way::CellToColumn, Way::ColumnToCell],
        cells,
        foundation,
        counts,
        tableau,
        out,
        at,
    )
}

// What is tried only near the end; the list has the moves home.
fn late_moves_at<'a>(
    cells: &'a [u8; 4],
    foundation: &'a [u8; 4],
    counts: &'a [u8; 8],
    tableau: &'a [u8; CODES],
    before: Features,
    list: &[u8],
    n: usize,
    out: &mut [u8],
    at: usize,
) -> usize
    requires holds { Holds (laid cells.now foundation.now counts.now tableau.now) list.now n }
    requires n_value { moves_in list.now n ≡ home_moves (shown (laid cells.now foundation.now counts.now tableau.now)) }
    requires before_value { before ≡ features_of (shown (laid cells.now foundation.now counts.now tableau.now)) }
    requires tableau_in_bounds { (at + length (late_moves (shown (laid cells.now foundation.now counts.now tableau.now)))) * 5 ≤ length out.old }
    ensures { Adds out.old out.new at result (late_moves (shown (laid cells.now foundation.now counts.now tableau.now))) }
{
    if before.home < weights::ENDGAME_UNSAFE_FOUNDATION_THRESHOLD {
        return at;
    }
    choose(
        Test::Unsafe,
        cells,
        foundation,
        counts,
        tableau,
        before,
        list,
        n,
        out,
        at,
    )
}

// All moves that are tried on a well formed board.
pub fn tried_at<'a>(
    cells: &'a [u8; 4],
    foundation: &'a [u8; 4],
    counts: &'a [u8; 8],
    tableau: &'a [u8; CODES],
    before: Features,
    out: &mut [u8],
) -> usize
    requires sound { Sound (laid cells.now foundation.now counts.now tableau.now) }
    requires before_value { before ≡ features_of (shown (laid cells.now foundation.now counts.now tableau.now)) }
    requires tried_room_in_bounds { tried_room ≤ length out.old }
    ensures { Adds out.old out.new 0 result (tried (shown (laid cells.now foundation.now counts.now tableau.now))) }
{
    let mut homes = [0u8; 60];
    let n = home_moves_at(cells, foundation, counts, tableau, &mut homes);
    let safe = choose(
        Test::Safe,
        cells,
        foundation,
        counts,
        tableau,
        before,
        &homes,
        n,
        out,
        0,
    );
    let back = back_moves_at(cells, foundation, counts, tableau, before, out, safe);
    let others = other_moves_at(cells, foundation, counts, tableau, out, back);
    late_moves_at(
        cells, foundation, counts, tableau, before, &homes, n, out, others,
    )
}
