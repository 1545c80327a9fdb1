//! Unions of tables.
ghost use Rattle.std.specs.Prelude.{◌≡◌, List, length, IfOk};
ghost use Rattle.span_core.specs.NameSets.{Ascending};
ghost use Rattle.span_core.specs.Lists.{Has};
ghost use Rattle.spanner_model.specs.Gathered.{Adds, HaveRoom};
ghost use Rattle.plain_spanner.specs.Listed.{Tells};
ghost use Rattle.plain_spanner.specs.Tables.{AreRows, IsUnited};

use crate::join::add_names;
use crate::order::sort_once;
use crate::table::Table;
use span_core::{MOST_VARIABLES, OutOfMemory};
use std::alloc::Global;

/// The rows of both tables, over the names of both. A name that one of the tables has not is absent
/// from its rows.
pub fn unite(alloc: Global, left: &Table, right: &Table) -> Result<Table, OutOfMemory>
    requires left { AreRows left.now.names left.now.rows.items }
    requires right { AreRows right.now.names right.now.rows.items }
    requires room { HaveRoom left.now.names (Has right.now.names) }
    ensures names { IfOk result (λ t. Adds left.now.names (Has right.now.names) t.names) }
    ensures ascending { IfOk result (λ t. Ascending t.names) }
    ensures rows { IfOk result (λ t. Tells (Has t.rows.items)
        (IsUnited t.names left.now.names right.now.names left.now.rows.items right.now.rows.items)) }
{
    let mut names = left.names.copy();
    add_names(&mut names, &right.names);
    let mut all = left.over(alloc, &names)?;
    let mut others = right.over(alloc, &names)?;
    all.rows.append(&mut others.rows)?;
    sort_once(&mut all.rows);
    Ok(all)
}
