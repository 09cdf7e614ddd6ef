// Which member reaches which, by a table.
ghost use Rattle.std.specs.Prelude.{◌≡◌, ◌<◌, ◌≤◌, ◌*◌, ◌+◌, [], List, length, true};
ghost use Rattle.std.specs.List.{list_all};
ghost use Rattle.pl_init.specs.Flags.{IsTable};
ghost use Rattle.pl_init.specs.Right.{is_numbered};
ghost use Rattle.pl_init.specs.Lawful.{precedes};

use crate::ReachRow;
use pl_scope::MAX_MEMBERS;

/// How many pairs of members there are.
pub const PAIRS: usize = MAX_MEMBERS * MAX_MEMBERS;

/// Rows with a flag for each pair of which a row leads from the first to the second.
#[derive(Drop)]
pub struct Table<'a> {
    /// The rows.
    pub rows: &'a [ReachRow],

    /// The flags, lent, so that no table of them stands on the stack.
    cells: &'a [bool],

    pub ghost tells: { IsTable cells.now rows.now },
}

fn cell(from: u32, to: u32) -> usize
    requires from { from < MAX_MEMBERS }
    requires to { to < MAX_MEMBERS }
    ensures value { result ≡ from * MAX_MEMBERS + to }
    ensures small { result < PAIRS }
{
    from as usize * MAX_MEMBERS + to as usize
}

/// Flags the pairs of which a row leads from the first to the second, where no pair is flagged yet.
pub fn flag_pairs(count: usize, rows: &[ReachRow], cells: &mut [bool])
    requires few { count ≤ MAX_MEMBERS }
    requires numbered { list_all (is_numbered count) rows.now ≡ true }
    requires none { IsTable cells.old [] }
    ensures { IsTable cells.new rows.now }
{
    for row in rows {
        cells[cell(row.from, row.to)] = true;
    }
}

impl<'a> Table<'a> {
    /// The table of rows, by their flags.
    pub fn of(rows: &'a [ReachRow], cells: &'a [bool]) -> Table<'a>
        requires { IsTable cells.now rows.now }
        ensures { result.rows.now ≡ rows.now }
    {
        Table { rows, cells }
    }

    /// Whether one member has to come before another.
    #[tactic(auto, unfolding(crate::specs::Lawful::precedes))]
    pub fn precedes(&self, first: u32, second: u32) -> bool
        requires first { first < MAX_MEMBERS }
        requires second { second < MAX_MEMBERS }
        ensures { result ≡ precedes self.now.rows.now first second }
    {
        self.cells[cell(second, first)] && (!self.cells[cell(first, second)] || first < second)
    }
}
