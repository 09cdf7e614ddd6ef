// Windows that share a byte with a table.
ghost use Rattle.std.specs.Prelude.{◌≡◌, nat_lt, IfOk};
ghost use Rattle.pl_base.specs.Windows.{end_of};
ghost use Rattle.pl_object.specs.FilePart.{nothing};
ghost use Rattle.pl_object.specs.TableClauses.{meets};
ghost use Rattle.pl_object.specs.Crossing as spec;

use crate::Window;
use std::alloc::{AllocError, Global};

/// Tables in the order of where they begin.
#[derive(Clone, Copy)]
pub struct SortedTables<'a> {
    pub tables: &'a [Window],

    /// For each number of tables, from 0 on, the one of so many first tables whose bytes end last; an empty window where none of them has bytes.
    pub furthest: &'a [Window],
}

/// Whether a window ends after another.
fn ends_after(window: &Window, last: &Window) -> bool
    ensures { result ≡ nat_lt (end_of last.now) (end_of window.now) }
{
    if last.at() <= window.at() {
        let gap = window.at() - last.at();
        let size = u128::from(last.size());
        gap > size || u128::from(window.size()) > size - gap
    } else {
        let gap = last.at() - window.at();
        let size = u128::from(window.size());
        gap < size && u128::from(last.size()) < size - gap
    }
}

#[tactic(auto, unfolding(crate::specs::Crossing::further))]
fn further(last: Window, window: &Window) -> Window
    ensures { result ≡ spec.further last window.now }
{
    if ends_after(window, &last) && window.size() > 0 {
        *window
    } else {
        last
    }
}

#[tactic(auto, unfolding(crate::specs::Crossing::is_met))]
fn is_met(last: Window, window: &Window) -> bool
    ensures { result ≡ spec.is_met last window.now }
{
    window.size() > 0
        && (window.at() < last.at() || window.at() - last.at() < u128::from(last.size()))
}

/// Whether a table begins before the end of a window.
fn begins_before(table: &Window, window: &Window) -> bool
    ensures { result ≡ nat_lt table.now.at (end_of window.now) }
{
    table.at() < window.at() || table.at() - window.at() < u128::from(window.size())
}

/// For each number of tables, from 0 on, the one of so many first tables whose bytes end last; an empty window where none of them has bytes. It fails only for want of memory.
pub fn furthest_windows(alloc: Global, tables: &[Window]) -> Result<Vec<Window>, AllocError>
    ensures { IfOk result (λ v. v.items ≡ spec.furthest_windows nothing tables.now) }
{
    let mut last = Window::new(0, 0);
    let mut all = Vec::new(alloc);
    all.push(last)?;
    for window in tables {
        last = further(last, window);
        all.push(last)?;
    }
    Ok(all)
}

impl SortedTables<'_> {
    /// Whether a window shares a byte with a table. The time grows as the logarithm of their number.
    pub fn meet(&self, window: Window) -> bool
        requires { spec.AreSorted self.now }
        ensures { result ≡ meets self.now.tables.now window }
    {
        let tables = self.tables;
        let furthest = self.furthest;
        let count = tables.partition_point(|table| begins_before(table, &window));
        is_met(furthest[count], &window)
    }
}
