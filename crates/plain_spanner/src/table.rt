//! Tables of answers.
ghost use Rattle.std.specs.Prelude.{◌≡◌, ◌≤◌, List, [], ◌∷◌, length, IfOk};
ghost use Rattle.span_core.specs.NameSets.{Ascending};
ghost use Rattle.span_core.specs.Lists.{Has};
ghost use Rattle.spanner_model.specs.Captures.{mapping_of};
ghost use Rattle.spanner_model.specs.Answers.{SpanRow};
ghost use Rattle.plain_spanner.specs.Listed.{Tells, FromSome};
ghost use Rattle.plain_spanner.specs.Tables.{row_over, IsRowOver, AreRows};

use crate::order::sort_once;
use span_core::{MOST_VARIABLES, Name, OutOfMemory, Row, Span, VarSet};
use std::alloc::Global;

/// The names of variables, and rows with their spans.
#[derive(Drop)]
pub struct Table {
    pub names: VarSet,
    pub rows: Vec<Row>,
}

impl Table {
    /// The table of no variable, with one row.
    pub fn unit(alloc: Global) -> Result<Table, OutOfMemory>
        ensures { IfOk result (λ t. (t.names ≡ []) × (t.rows.items ≡ [] ∷ [])) }
    {
        let mut rows = Vec::new(alloc);
        rows.push(Row::empty())?;
        Ok(Table {
            names: VarSet::empty(),
            rows,
        })
    }

    /// The table of no variable, with no row.
    pub fn none(alloc: Global) -> Table
        ensures names { result.names ≡ [] }
        ensures rows { result.rows.items ≡ [] }
    {
        Table {
            names: VarSet::empty(),
            rows: Vec::new(alloc),
        }
    }

    /// The rows over these names, each once. A name that is none of the table's is absent.
    pub fn over(&self, alloc: Global, names: &VarSet) -> Result<Table, OutOfMemory>
        requires { AreRows self.now.names self.now.rows.items }
        ensures names { IfOk result (λ t. t.names ≡ names.now) }
        ensures ascending { Ascending names.now }
        ensures rows { IfOk result
            (λ t. Tells (Has t.rows.items) (FromSome (IsRowOver self.now.names names.now) self.now.rows.items)) }
    {
        prove!(names.len() <= MOST_VARIABLES);
        let mut rows = Vec::new(alloc);
        for row in &self.rows {
            rows.push(row_with(row, &self.names, names))?;
        }
        sort_once(&mut rows);
        Ok(Table {
            names: names.copy(),
            rows,
        })
    }
}

/// The row over the other names of a row over these names.
pub fn row_with(row: &Row, names: &VarSet, others: &VarSet) -> Row
    requires { length row.now ≡ length names.now }
    ensures { result ≡ row_over names.now others.now row.now }
{
    let mut result = Row::empty();
    for k in 0..others.len() {
        result.push(span_in(row, names, others.at(k)));
    }
    result
}

/// The span of a name in a row over these names. None where it is absent, and for any other name.
pub fn span_in(row: &Row, names: &VarSet, name: &Name) -> Option<Span>
    requires { length row.now ≡ length names.now }
    ensures { result ≡ mapping_of names.now row.now name.now }
{
    prove!(names.len() <= MOST_VARIABLES);
    match names.find(name) {
        Some(place) => row.at(place),
        None => None,
    }
}
