// What C calls: each function of crates/corbelnib under its own name, with the same clauses; a slice is a pointer and then a length
// (include/corbelnib.h).
#![tactic(auto)]

ghost use Rattle.std.specs.Prelude.{◌≡◌};
ghost use Rattle.crossing.specs.Crossing.{left};
ghost use Rattle.season.specs.Season.{lent_of};
ghost use Rattle.corbelnib.specs.Calls.{promise, asks, runs, lends};
ghost use Rattle.corbelnib.specs.Calls as call;

#[unsafe(no_mangle)]
pub extern "C" fn corbelnib_examine(board: &[u8]) -> u8
    ensures { result ≡ (promise call.examine board.now tt).number }
{
    corbelnib::corbelnib_examine(board)
}

#[unsafe(no_mangle)]
pub extern "C" fn corbelnib_read(image: &[u8], board: &mut [u8]) -> u8
    ensures { left result board.new ≡ promise call.read image.now board.old }
{
    corbelnib::corbelnib_read(image, board)
}

#[unsafe(no_mangle)]
pub extern "C" fn corbelnib_deal(deck: &[u8], board: &mut [u8]) -> u8
    ensures { left result board.new ≡ promise call.deal deck.now board.old }
{
    corbelnib::corbelnib_deal(deck, board)
}

#[unsafe(no_mangle)]
pub extern "C" fn corbelnib_number(number: usize, board: &mut [u8]) -> u8
    ensures { left result board.new ≡ promise call.number number board.old }
{
    corbelnib::corbelnib_number(number, board)
}

#[unsafe(no_mangle)]
pub extern "C" fn corbelnib_move(board: &[u8], bytes: &[u8], after: &mut [u8]) -> u8
    ensures { left result after.new ≡ promise call.move (board.now, bytes.now) after.old }
{
    corbelnib::corbelnib_move(board, bytes, after)
}

#[unsafe(no_mangle)]
pub extern "C" fn corbelnib_replay(
    board: &[u8],
    list: &[u8],
    after: &mut [u8],
    played: &mut usize,
) -> u8
    ensures { left result (after.new, played.new) ≡ promise call.replay (board.now, list.now) (after.old, played.old) }
{
    corbelnib::corbelnib_replay(board, list, after, played)
}

#[unsafe(no_mangle)]
pub extern "C" fn corbelnib_read_line(
    board: &[u8],
    text: &[u8],
    list: &mut [u8],
    count: &mut usize,
) -> u8
    ensures { left result (list.new, count.new) ≡ promise call.read_line (board.now, text.now) (list.old, count.old) }
{
    corbelnib::corbelnib_read_line(board, text, list, count)
}

#[unsafe(no_mangle)]
pub extern "C" fn corbelnib_write_line(
    board: &[u8],
    list: &[u8],
    text: &mut [u8],
    count: &mut usize,
) -> u8
    ensures { left result (text.new, count.new) ≡ promise call.write_line (board.now, list.now) (text.old, count.old) }
{
    corbelnib::corbelnib_write_line(board, list, text, count)
}

#[unsafe(no_mangle)]
pub extern "C" fn corbelnib_chain(board: &[u8], after: &mut [u8], moves: &mut usize) -> u8
    ensures { left result (after.new, moves.new) ≡ promise call.chain board.now (after.old, moves.old) }
{
    corbelnib::corbelnib_chain(board, after, moves)
}

#[unsafe(no_mangle)]
pub extern "C" fn corbelnib_moves(
    board: &[u8],
    kind: u8,
    records: &mut [u8],
    count: &mut usize,
) -> u8
    ensures { left result (records.new, count.new) ≡ promise call.moves (board.now, kind) (records.old, count.old) }
{
    corbelnib::corbelnib_moves(board, kind, records, count)
}

#[unsafe(no_mangle)]
pub extern "C" fn corbelnib_candidates(board: &[u8], records: &mut [u8], count: &mut usize) -> u8
    ensures { left result (records.new, count.new) ≡ promise call.candidates board.now (records.old, count.old) }
{
    corbelnib::corbelnib_candidates(board, records, count)
}

#[unsafe(no_mangle)]
pub extern "C" fn corbelnib_token(board: &[u8], text: &mut [u8], count: &mut usize) -> u8
    ensures { left result (text.new, count.new) ≡ promise call.token board.now (text.old, count.old) }
{
    corbelnib::corbelnib_token(board, text, count)
}

#[unsafe(no_mangle)]
pub extern "C" fn corbelnib_priority(board: &[u8], bytes: &[u8], priority: &mut i64) -> u8
    ensures { left result priority.new ≡ promise call.priority (board.now, bytes.now) priority.old }
{
    corbelnib::corbelnib_priority(board, bytes, priority)
}

#[unsafe(no_mangle)]
pub extern "C" fn corbelnib_scores(board: &[u8], heuristic: &mut i64, progress: &mut i64) -> u8
    ensures { left result (heuristic.new, progress.new) ≡ promise call.scores board.now (heuristic.old, progress.old) }
{
    corbelnib::corbelnib_scores(board, heuristic, progress)
}

#[unsafe(no_mangle)]
pub extern "C" fn corbelnib_signature(board: &[u8], signature: &mut u64) -> u8
    ensures { left result signature.new ≡ promise call.signature board.now signature.old }
{
    corbelnib::corbelnib_signature(board, signature)
}

#[unsafe(no_mangle)]
pub extern "C" fn corbelnib_top(board: &[u8], column: usize, code: &mut u8) -> u8
    ensures { left result code.new ≡ promise call.top (board.now, column) code.old }
{
    corbelnib::corbelnib_top(board, column, code)
}

#[unsafe(no_mangle)]
pub extern "C" fn corbelnib_cell(board: &[u8], cell: usize, code: &mut u8) -> u8
    ensures { left result code.new ≡ promise call.cell (board.now, cell) code.old }
{
    corbelnib::corbelnib_cell(board, cell, code)
}

#[unsafe(no_mangle)]
pub extern "C" fn corbelnib_home(board: &[u8], suit: usize, count: &mut usize) -> u8
    ensures { left result count.new ≡ promise call.home (board.now, suit) count.old }
{
    corbelnib::corbelnib_home(board, suit, count)
}

#[unsafe(no_mangle)]
pub extern "C" fn corbelnib_most(board: &[u8], column: usize, count: &mut usize) -> u8
    ensures { left result count.new ≡ promise call.most (board.now, column) count.old }
{
    corbelnib::corbelnib_most(board, column, count)
}

#[unsafe(no_mangle)]
pub extern "C" fn corbelnib_won(board: &[u8], won: &mut u8) -> u8
    ensures { left result won.new ≡ promise call.won board.now won.old }
{
    corbelnib::corbelnib_won(board, won)
}

#[unsafe(no_mangle)]
pub extern "C" fn corbelnib_safe(board: &[u8], bytes: &mut [u8], count: &mut usize) -> u8
    ensures { left result (bytes.new, count.new) ≡ promise call.safe board.now (bytes.old, count.old) }
{
    corbelnib::corbelnib_safe(board, bytes, count)
}

#[unsafe(no_mangle)]
pub extern "C" fn corbelnib_features(board: &[u8], features: &mut [u64]) -> u8
    ensures { left result features.new ≡ promise call.features board.now features.old }
{
    corbelnib::corbelnib_features(board, features)
}

#[unsafe(no_mangle)]
pub extern "C" fn corbelnib_capacity(nodes: usize, heap: usize, keys: usize, costs: usize) -> usize
    ensures { result ≡ (promise call.capacity (nodes, (heap, (keys, costs))) tt).number }
{
    corbelnib::corbelnib_capacity(nodes, heap, keys, costs)
}

#[unsafe(no_mangle)]
pub extern "C" fn corbelnib_judge(
    board: &[u8],
    budget: usize,
    partial: u8,
    nodes: &mut [u32],
    heap: &mut [u64],
    keys: &mut [u64],
    costs: &mut [u8],
    list: &mut [u8],
    pops: &mut usize,
    moves: &mut usize,
) -> u8
    ensures { left result (lends nodes.new heap.new keys.new costs.new list.new pops.new moves.new) ≡ promise call.judge (asks board.now budget partial) (lends nodes.old heap.old keys.old costs.old list.old pops.old moves.old) }
{
    corbelnib::corbelnib_judge(
        board, budget, partial, nodes, heap, keys, costs, list, pops, moves,
    )
}

#[unsafe(no_mangle)]
pub extern "C" fn corbelnib_season(
    first: usize,
    last: usize,
    budget: usize,
    partial: u8,
    nodes: &mut [u32],
    heap: &mut [u64],
    keys: &mut [u64],
    costs: &mut [u8],
    sheet: &mut [u64],
) -> u8
    ensures { left result (lent_of nodes.new heap.new keys.new costs.new sheet.new) ≡ promise call.season (runs first last budget partial) (lent_of nodes.old heap.old keys.old costs.old sheet.old) }
{
    corbelnib::corbelnib_season(
        first, last, budget, partial, nodes, heap, keys, costs, sheet,
    )
}

#[unsafe(no_mangle)]
pub extern "C" fn corbelnib_version() -> u32
    ensures { result ≡ (promise call.version tt tt).number }
{
    corbelnib::corbelnib_version()
}

#[unsafe(no_mangle)]
pub extern "C" fn corbelnib_add(into: &mut [u64], other: &[u64]) -> u8
    ensures { left result into.new ≡ promise call.add other.now into.old }
{
    corbelnib::corbelnib_add(into, other)
}
