// The season's figures: sheets of words over deal numbers, and their marks. Deals are entered by `entries`, sheets examined by `audit`
// and added by `totals`. Knows no cards.
#![tactic(auto)]

ghost use Rattle.std.specs.Prelude.{◌≡◌, ◌≤◌, length};
ghost use Rattle.sheets.specs.Figures.{told, place_of, mark_list, mark_deal};
ghost use Rattle.sheets.specs.Over.{behind, key_of};
ghost use Rattle.sheets.specs.Adding.{key_in};
ghost use Rattle.sheets.specs.Promises.{Small, mark_set};

// The words of a sheet, and where its figures stand (specs/Figures.antt).
pub const SHEET: usize = 716;

pub const BUDGET: usize = 0;

pub const CAPACITY: usize = 1;

pub const FLAG: usize = 2;

// A word for each of the answers that are counted.
pub const ANSWERS: usize = 3;

pub const POPS: usize = 10;

// A list's length, and the deal.
pub const SHORTEST: usize = 11;

pub const SHORTEST_DEAL: usize = 12;

pub const LONGEST: usize = 13;

pub const LONGEST_DEAL: usize = 14;

// A word for each length of a won list.
pub const LISTS: usize = 15;

pub const LENGTHS: usize = 201;

// A bit for each deal number.
pub const COVERS: usize = 216;

pub const LAST_DEAL: usize = 32_000;

pub const LONGEST_LIST: u64 = 200;

// A sheet without a win: above the key of every mark.
pub const NO_KEY: u64 = 6_586_368;

pub const MOST_BUDGET: u64 = 1_000_000;

// Which won list is marked.
#[derive(Clone, Copy)]
pub enum Side {
    Shortest,
    Longest,
}

impl Side {
    // Where the side's mark stands: its list, and its deal.
    fn places(self) -> (usize, usize)
        ensures { (result.0 ≡ place_of (mark_list self)) × (result.1 ≡ place_of (mark_deal self)) }
    {
        match self {
            Side::Shortest => (SHORTEST, SHORTEST_DEAL),
            Side::Longest => (LONGEST, LONGEST_DEAL),
        }
    }

    // How far a list is behind the best.
    pub fn behind(self, list: u64) -> u64
        requires { list ≤ 200 }
        ensures { result ≡ behind self list }
    {
        match self {
            Side::Shortest => list,
            Side::Longest => LONGEST_LIST - list,
        }
    }
}

// A mark: how many moves the shortest or the longest won list has, and the lowest deal with it (without a win 0 and 0).
#[derive(Clone, Copy, PartialEq, Eq, Default)]
pub struct Mark {
    pub list: u64,
    pub deal: u64,
}

impl Mark {
    // A sheet's mark.
    #[tactic(auto, unfolding(crate::specs::Figures::told))]
    pub fn of(sheet: &[u64], side: Side) -> Mark
        requires { length sheet.now ≡ 716 }
        ensures { (result.list ≡ told sheet.now (mark_list side)) × (result.deal ≡ told sheet.now (mark_deal side)) }
    {
        let (list, deal) = side.places();
        Mark {
            list: sheet[list],
            deal: sheet[deal],
        }
    }

    // Marks are compared as numbers.
    pub fn key(self, side: Side) -> u64
        requires { (self.list ≤ 200) × (self.deal ≤ 32000) }
        ensures { result ≡ key_of side self.list self.deal }
    {
        side.behind(self.list) * 32768 + self.deal
    }

    // The key of a sheet's mark.
    #[tactic(auto, unfolding(crate::specs::Adding::key_in))]
    pub fn key_on(sheet: &[u64], side: Side) -> u64
        requires { Small side sheet.now }
        ensures { result ≡ key_in side sheet.now }
    {
        let mark = Mark::of(sheet, side);
        if mark.deal == 0 {
            NO_KEY
        } else {
            mark.key(side)
        }
    }

    // Put on a sheet.
    pub fn put(self, sheet: &mut [u64], side: Side)
        requires { length sheet.old ≡ 716 }
        ensures { sheet.new ≡ mark_set side sheet.old self.list self.deal }
    {
        let (list, deal) = side.places();
        sheet[list] = self.list;
        sheet[deal] = self.deal;
    }
}
