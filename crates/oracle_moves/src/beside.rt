// A board beside the one that was given.
use board::Board;
use saying::Hex;
use std::fmt;

// `=` if every byte is the same; else cells, foundation counts, the codes of each column, how many bytes of unused room
// are not zero.
#[derive(Clone, Copy)]
pub(crate) struct Beside<'a> {
    pub(crate) board: &'a Board,
    pub(crate) given: &'a Board,
}

fn same(a: &Board, b: &Board) -> bool {
    a.cells == b.cells
        && a.foundation == b.foundation
        && a.counts == b.counts
        && a.tableau == b.tableau
}

impl fmt::Display for Beside<'_> {
    fn fmt<W: fmt::Write>(&self, f: &mut fmt::Formatter<W>) -> fmt::Result {
        if same(self.board, self.given) {
            return write!(f, "=");
        }
        let board = self.board;
        write!(f, "{} {} ", Hex(&board.cells), Hex(&board.foundation))?;
        let mut spare = 0usize;
        for (codes, room) in saying::columns(board) {
            write!(f, "{}|", Hex(codes))?;
            spare = spare.saturating_add(saying::dirty(room));
        }
        write!(f, " {spare}")
    }
}
