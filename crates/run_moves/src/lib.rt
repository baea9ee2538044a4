// Runs from column to column, by destination and length (after freecell/board.rs, `find_tableau_to_tableau`,
// changed: NOTICE).
#![tactic(auto)]

ghost use Rattle.std.specs.Prelude.{◌≡◌, suc, ◌+◌, ◌*◌, ◌<◌, ◌≤◌, length, get_or};
ghost use Rattle.board.specs.Record.{shown, column_at, laid};
ghost use Rattle.board.specs.Inner.{Sound};
ghost use Rattle.runs.specs.Run.{run_length};
ghost use Rattle.generate.specs.Found.{offered, if_allowed, gather, found_between, found_from};
ghost use Rattle.moves.specs.Written.{Adds};
ghost use Rattle.generate.specs.Inner.{Reaches, tried_run, Between};
ghost use Rattle.generate.specs.declared.Way.TheVariants.{ColumnToColumn};

use board::{CODES, ROOM};
use moves::Move;

// The run of so many cards between two columns, if it fits; within the run and the limit.
fn offer_run<'a>(
    cells: &'a [u8; 4],
    foundation: &'a [u8; 4],
    counts: &'a [u8; 8],
    tableau: &'a [u8; CODES],
    i: usize,
    j: usize,
    k: usize,
    out: &mut [u8],
    n: usize,
) -> usize
    requires reaches { Reaches (laid cells.now foundation.now counts.now tableau.now) i j k }
    requires k_in_bounds { (n + length (if_allowed (shown (laid cells.now foundation.now counts.now tableau.now)) (offered (shown (laid cells.now foundation.now counts.now tableau.now)) ColumnToColumn i j (suc k)))) * 5 ≤ length out.old }
    ensures { Adds out.old out.new n result (if_allowed (shown (laid cells.now foundation.now counts.now tableau.now)) (offered (shown (laid cells.now foundation.now counts.now tableau.now)) ColumnToColumn i j (suc k))) }
{
    let first = i * ROOM;
    let above = k + 1;
    let lie = usize::from(counts[i]);
    let deepest = first + (lie - above);
    let code = tableau[deepest];
    if rules::fit_at(counts, tableau, j, code) {
        let card = card::card_of(code);
        let m = Move::TableauToTableau {
            source: i,
            destination: j,
            count: above,
            card,
        };
        return moves::write(out, n, m);
    }
    n
}

// The runs of up to `last` cards between two columns, length after length.
fn runs_into<'a>(
    cells: &'a [u8; 4],
    foundation: &'a [u8; 4],
    counts: &'a [u8; 8],
    tableau: &'a [u8; CODES],
    i: usize,
    j: usize,
    last: usize,
    out: &mut [u8],
    n: usize,
) -> usize
    requires between { Between (laid cells.now foundation.now counts.now tableau.now) i j last }
    requires j_in_bounds { (n + length (gather last (tried_run (shown (laid cells.now foundation.now counts.now tableau.now)) i j))) * 5 ≤ length out.old }
    ensures { Adds out.old out.new n result (gather last (tried_run (shown (laid cells.now foundation.now counts.now tableau.now)) i j)) }
{
    let mut made = n;
    for k in 0..last {
        made = offer_run(cells, foundation, counts, tableau, i, j, k, out, made);
    }
    made
}

// The same onto an occupied column: one length can fit, by the two top cards, and no other is looked at.
fn run_onto<'a>(
    cells: &'a [u8; 4],
    foundation: &'a [u8; 4],
    counts: &'a [u8; 8],
    tableau: &'a [u8; CODES],
    i: usize,
    j: usize,
    last: usize,
    out: &mut [u8],
    n: usize,
) -> usize
    requires between { Between (laid cells.now foundation.now counts.now tableau.now) i j last }
    requires nonzero { 0 < get_or counts.now j 0 }
    requires j_in_bounds { (n + length (gather last (tried_run (shown (laid cells.now foundation.now counts.now tableau.now)) i j))) * 5 ≤ length out.old }
    ensures { Adds out.old out.new n result (gather last (tried_run (shown (laid cells.now foundation.now counts.now tableau.now)) i j)) }
{
    let upper = rules::top_value(counts, tableau, j);
    let top = rules::top_value(counts, tableau, i);
    if upper <= top {
        return n;
    }
    let only = upper - top;
    if last < only {
        return n;
    }
    let k = only - 1;
    offer_run(cells, foundation, counts, tableau, i, j, k, out, n)
}

// The runs between two columns, none from a column to itself; the longest of the first has `run` cards.
fn runs_between<'a>(
    cells: &'a [u8; 4],
    foundation: &'a [u8; 4],
    counts: &'a [u8; 8],
    tableau: &'a [u8; CODES],
    i: usize,
    run: usize,
    j: usize,
    out: &mut [u8],
    n: usize,
) -> usize
    requires sound { Sound (laid cells.now foundation.now counts.now tableau.now) }
    requires i_bound { i < 8 }
    requires j_bound { j < 8 }
    requires run_value { run ≡ run_length (column_at counts.now tableau.now i) }
    requires j_in_bounds { (n + length (found_between (shown (laid cells.now foundation.now counts.now tableau.now)) ColumnToColumn i j)) * 5 ≤ length out.old }
    ensures { Adds out.old out.new n result (found_between (shown (laid cells.now foundation.now counts.now tableau.now)) ColumnToColumn i j) }
{
    if i == j {
        return n;
    }
    let most = rules::most_at(cells, counts, tableau, j);
    let last = run.min(most);
    if counts[j] == 0 {
        return runs_into(cells, foundation, counts, tableau, i, j, last, out, n);
    }
    run_onto(cells, foundation, counts, tableau, i, j, last, out, n)
}

// The runs from a column.
pub fn runs_from<'a>(
    cells: &'a [u8; 4],
    foundation: &'a [u8; 4],
    counts: &'a [u8; 8],
    tableau: &'a [u8; CODES],
    i: usize,
    out: &mut [u8],
    n: usize,
) -> usize
    requires sound { Sound (laid cells.now foundation.now counts.now tableau.now) }
    requires i_bound { i < 8 }
    requires i_in_bounds { (n + length (found_from (shown (laid cells.now foundation.now counts.now tableau.now)) ColumnToColumn i)) * 5 ≤ length out.old }
    ensures { Adds out.old out.new n result (found_from (shown (laid cells.now foundation.now counts.now tableau.now)) ColumnToColumn i) }
{
    let run = rules::run_at(counts, tableau, i);
    let mut made = n;
    for j in 0..8 {
        made = runs_between(cells, foundation, counts, tableau, i, run, j, out, made);
    }
    made
}
