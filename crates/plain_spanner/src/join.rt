//! Joins of tables.
ghost use Rattle.std.specs.Prelude.{◌≡◌, ◌↔◌, ◌⊎◌, ℕ, ◌<◌, ◌≤◌, List, [], ◌++◌, length, slice_get, Some, IfOk, OnOk, IsTrue};
ghost use Rattle.std.specs.Option.{IsSomeAnd};
ghost use Rattle.std.specs.BTreeMap.{get};
ghost use Rattle.span_core.specs.Comparison.{row_cmp};
ghost use Rattle.span_core.specs.NameSets.{Ascending};
ghost use Rattle.span_core.specs.Lists.{Has};
ghost use Rattle.spanner_model.specs.Captures.{VarName};
ghost use Rattle.spanner_model.specs.Captures.{row_of};
ghost use Rattle.spanner_model.specs.Answers.{SpanRow};
ghost use Rattle.spanner_model.specs.Gathered.{Adds, HaveRoom};
ghost use Rattle.plain_spanner.specs.Listed.{Tells, FromSome};
ghost use Rattle.plain_spanner.specs.Tables.{AreRows, row_over, IsJoined, merged, HasKeyAt, JoinsWith, JoinsRow};

use crate::table::{Table, row_with, span_in};
use span_core::{MOST_VARIABLES, Name, OutOfMemory, Row, Span, VarSet};
use std::alloc::Global;
use std::collections::BTreeMap;

/// The rows that two rows make which meet, one of each table: a variable that both tables have is
/// given the same span by both, or is absent from both. Those of the right table are found by what
/// they say of these variables.
pub fn join(alloc: Global, left: &Table, right: &Table) -> Result<Table, OutOfMemory>
    requires left { AreRows left.now.names left.now.rows.items }
    requires right { AreRows right.now.names right.now.rows.items }
    requires room { HaveRoom left.now.names (Has right.now.names) }
    ensures names { IfOk result (λ t. Adds left.now.names (Has right.now.names) t.names) }
    ensures ascending { IfOk result (λ t. Ascending t.names) }
    ensures rows { IfOk result (λ t. Tells (Has t.rows.items)
        (IsJoined t.names left.now.names right.now.names left.now.rows.items right.now.rows.items)) }
{
    let shared = names_in_both(&left.names, &right.names);
    let places = places_by_key(alloc, right, &shared)?;
    let keyed = KeyedPlaces {
        key_names: shared,
        places,
    };
    let mut names = left.names.copy();
    add_names(&mut names, &right.names);
    prove!(names.len() <= MOST_VARIABLES);
    let mut rows = Vec::new(alloc);
    for row in &left.rows {
        add_joins(&mut rows, &names, &left.names, row, right, &keyed)?;
    }
    Ok(Table { names, rows })
}

/// The names that both sets have.
fn names_in_both(left: &VarSet, right: &VarSet) -> VarSet
    ensures { (x : VarName) → Has result x ↔ (Has left.now x × Has right.now x) }
{
    let mut shared = VarSet::empty();
    for k in 0..left.len() {
        let name = left.at(k);
        if has_name(right, name) {
            add_name(&mut shared, name);
        }
    }
    shared
}

fn has_name(names: &VarSet, name: &Name) -> bool
    ensures { IsTrue result ↔ Has names.now name.now }
{
    names.find(name).is_some()
}

/// Adds the names to a set that has room for them.
pub fn add_names(into: &mut VarSet, names: &VarSet)
    requires { HaveRoom into.old (Has names.now) }
    ensures { Adds into.old (Has names.now) into.new }
{
    for k in 0..names.len() {
        add_name(into, names.at(k));
    }
}

/// Adds a name to a set that has room for it.
fn add_name(into: &mut VarSet, name: &Name)
    requires { HaveRoom into.old (λ x. name.now ≡ x) }
    ensures { Adds into.old (λ x. name.now ≡ x) into.new }
{
    prove!(into.len() <= MOST_VARIABLES);
    into.add(*name);
}

/// The places of a table's rows by their keys. The key of a row is its row over the key names.
#[derive(Drop)]
struct KeyedPlaces {
    key_names: VarSet,
    places: BTreeMap<Row, Vec<usize>>,
}

/// For each key the places of the rows that have it. The key of a row is its row over the key names.
fn places_by_key(
    alloc: Global,
    table: &Table,
    key_names: &VarSet,
) -> Result<BTreeMap<Row, Vec<usize>>, OutOfMemory>
    requires { AreRows table.now.names table.now.rows.items }
    ensures { IfOk result (λ m. (key : SpanRow) (p : ℕ) → IsSomeAnd (get row_cmp m key) (λ v. Has v.items p)
        ↔ HasKeyAt table.now.names key_names.now table.now.rows.items key p) }
{
    let mut places = BTreeMap::new(alloc);
    for (place, row) in table.rows.iter().enumerate() {
        let key = row_with(row, &table.names, key_names);
        add_place(alloc, &mut places, key, place)?;
    }
    Ok(places)
}

/// Adds a place of a key.
fn add_place(
    alloc: Global,
    places: &mut BTreeMap<Row, Vec<usize>>,
    key: Row,
    place: usize,
) -> Result<(), OutOfMemory>
    ensures { OnOk result ((q : SpanRow) (p : ℕ) → IsSomeAnd (get row_cmp places.new q) (λ v. Has v.items p)
        ↔ (IsSomeAnd (get row_cmp places.old q) (λ v. Has v.items p) ⊎ ((key ≡ q) × (place ≡ p)))) }
{
    let mut known = places.remove(&key).unwrap_or(Vec::new(alloc));
    known.push(place)?;
    places.insert(key, known)?;
    Ok(())
}

/// Adds the rows that `row` makes with the right table's rows that it meets.
fn add_joins(
    rows: &mut Vec<Row>,
    names: &VarSet,
    left_names: &VarSet,
    row: &Row,
    right: &Table,
    keyed: &KeyedPlaces,
) -> Result<(), OutOfMemory>
    requires left { length row.now ≡ length left_names.now }
    requires right { AreRows right.now.names right.now.rows.items }
    requires shared { (x : VarName) → Has keyed.now.key_names x ↔ (Has left_names.now x × Has right.now.names x) }
    requires places { (key : SpanRow) (p : ℕ) → IsSomeAnd (get row_cmp keyed.now.places key) (λ v. Has v.items p)
        ↔ HasKeyAt right.now.names keyed.now.key_names right.now.rows.items key p }
    ensures { OnOk result (Tells (Has rows.new.items) (λ r. Has rows.old.items r
        ⊎ JoinsRow names.now left_names.now right.now.names right.now.rows.items row.now r)) }
{
    let key = row_with(row, left_names, &keyed.key_names);
    let Some(found) = keyed.places.get(&key) else {
        return Ok(());
    };
    add_joined(rows, names, left_names, row, right, found)?;
    Ok(())
}

/// Adds the rows that `row` makes with the right table's rows at these places.
fn add_joined(
    rows: &mut Vec<Row>,
    names: &VarSet,
    left_names: &VarSet,
    row: &Row,
    right: &Table,
    places: &[usize],
) -> Result<(), OutOfMemory>
    requires left { length row.now ≡ length left_names.now }
    requires right { AreRows right.now.names right.now.rows.items }
    requires within { (p : ℕ) → Has places.now p → p < length right.now.rows.items }
    ensures { OnOk result (Tells (Has rows.new.items) (λ r. Has rows.old.items r
        ⊎ FromSome (JoinsWith names.now left_names.now right.now.names row.now right.now.rows.items) places.now r)) }
{
    for place in places {
        rows.push(both(names, left_names, row, &right.names, &right.rows[*place]))?;
    }
    Ok(())
}

/// The row over `names` of a row over the left names and one over the right names.
fn both(names: &VarSet, left_names: &VarSet, left: &Row, right_names: &VarSet, right: &Row) -> Row
    requires left { length left.now ≡ length left_names.now }
    requires right { length right.now ≡ length right_names.now }
    ensures { result ≡ row_of names.now (merged left_names.now right_names.now left.now right.now) }
{
    let mut row = Row::empty();
    for k in 0..names.len() {
        row.push(span_in_either(left_names, left, right_names, right, names.at(k)));
    }
    row
}

/// The span of a name in the left row, or where the left names have no such name in the right one.
fn span_in_either(
    left_names: &VarSet,
    left: &Row,
    right_names: &VarSet,
    right: &Row,
    name: &Name,
) -> Option<Span>
    requires left { length left.now ≡ length left_names.now }
    requires right { length right.now ≡ length right_names.now }
    ensures { result ≡ merged left_names.now right_names.now left.now right.now name.now }
{
    if has_name(left_names, name) {
        span_in(left, left_names, name)
    } else {
        span_in(right, right_names, name)
    }
}
