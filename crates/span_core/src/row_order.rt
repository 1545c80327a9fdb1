//! Block order, the order of rows.
ghost use Rattle.std.specs.Prelude.{◌≡◌, ℕ, length};
ghost use Rattle.span_core.specs.Block.{block, marker};
ghost use Rattle.span_core.specs.Digits.{digit};
ghost use Rattle.span_core.specs.Order.{IsOrderOf, RowsAreOrdered};
ghost use Rattle.span_core.specs.Comparison.{Finds, RowCmpIsOrder, earlier_of, row_cmp};

use crate::{Row, Span};
use std::cmp::Ordering;

/// Block order, by which std sorts rows.
impl Ord for Row {
    ghost use Rattle.span_core.specs.Comparison.{row_cmp};
    ghost use Rattle.span_core.specs.ComparisonLaws.{row_cmp_total};
    ghost use Rattle.std.proofs.Common.{rules};
    ghost use Rattle.std.specs.Cmp.Rules.{comparing};

    ghost cmp = { row_cmp };

    ghost total = { row_cmp_total };

    ghost matches_partial_cmp = { Prim.search (comparing, rules) };

    ghost matches_eq = { Prim.search (comparing, rules) };

    fn cmp(&self, other: &Row) -> Ordering {
        compare(self, other)
    }
}

impl PartialOrd for Row {
    ghost use Rattle.span_core.specs.Comparison.{row_cmp};
    ghost use Rattle.span_core.specs.ComparisonLaws.{row_cmp_total};
    ghost use Rattle.std.specs.Ordering.{as_partial_cmp};
    ghost use Rattle.std.specs.Prelude.{refl};
    ghost use Rattle.std.specs.Cmp.{po};

    ghost partial_cmp = { as_partial_cmp row_cmp };

    ghost laws = { po row_cmp_total (λ x y. refl) };

    fn partial_cmp(&self, other: &Row) -> Option<Ordering> {
        Some(self.cmp(other))
    }
}

impl PartialEq for Row {
    ghost use Rattle.span_core.specs.Comparison.{row_cmp};
    ghost use Rattle.span_core.specs.ComparisonLaws.{row_cmp_total};
    ghost use Rattle.std.specs.Ordering.{eq_by_cmp};
    ghost use Rattle.std.specs.Cmp.{eq_by_cmp_equiv, partial_equiv_from_equiv};

    ghost eq = { eq_by_cmp row_cmp };

    ghost laws = { partial_equiv_from_equiv (eq_by_cmp_equiv row_cmp_total) };

    fn eq(&self, other: &Row) -> bool {
        self.cmp(other).is_eq()
    }
}

impl Eq for Row {
    ghost use Rattle.span_core.specs.ComparisonLaws.{row_cmp_total};
    ghost use Rattle.std.proofs.lemmas.Cmp.{eq_by_cmp_equiv};

    ghost laws = { eq_by_cmp_equiv row_cmp_total };
}

/// A law: the order of rows is a strict total one, and the function by which std compares rows
/// answers by it.
pub fn rows_are_ordered()
    ensures order { RowsAreOrdered }
    ensures comparison { RowCmpIsOrder }
{}

/// The order of two rows. One with fewer variables comes first, and rows with equally many are in
/// block order: at the first position at which their blocks differ, the first row has the greater.
///
/// For one variable that is the order by start and then by end, with the row from which it is absent last. For more it
/// is not the order of the lists of spans.
pub fn compare(a: &Row, b: &Row) -> Ordering
    ensures { IsOrderOf result a.now b.now }
{
    let a = a.spans();
    let b = b.spans();
    match a.len().cmp(&b.len()) {
        Ordering::Equal => match difference(a, b) {
            None => Ordering::Equal,
            Some((_, order)) => order,
        },
        order => order,
    }
}

/// The first position at which the blocks of two rows differ, and the order that follows.
fn difference(a: &[Option<Span>], b: &[Option<Span>]) -> Option<(u32, Ordering)>
    requires { length a.now ≡ length b.now }
    ensures { Finds (block a.now) (block b.now) result }
{
    let mut found = None;
    for k in (0..a.len()).rev() {
        found = earlier(span_difference(a[k], b[k]), found);
    }
    found
}

/// The first position at which the markers of one variable differ, and the order that follows.
fn span_difference(a: Option<Span>, b: Option<Span>) -> Option<(u32, Ordering)>
    ensures { Finds (digit a) (digit b) result }
{
    match (a, b) {
        (Some(a), Some(b)) => earlier(
            marker_difference(a.start, b.start),
            marker_difference(a.end, b.end),
        ),
        (Some(a), None) => Some((a.start, Ordering::Less)),
        (None, Some(b)) => Some((b.start, Ordering::Greater)),
        (None, None) => None,
    }
}

/// The same for one marker, which stands at `a` in the first row and at `b` in the second.
fn marker_difference(a: u32, b: u32) -> Option<(u32, Ordering)>
    ensures { (bit : ℕ) → Finds (marker bit a) (marker bit b) result }
{
    match a.cmp(&b) {
        Ordering::Equal => None,
        order => Some((a.min(b), order)),
    }
}

/// The first of two differences. At the same position the one in front decides: its bits are higher.
fn earlier(front: Option<(u32, Ordering)>, back: Option<(u32, Ordering)>) -> Option<(u32, Ordering)>
    ensures { result ≡ earlier_of front back }
{
    match (front, back) {
        (Some(front), Some(back)) => Some(if back.0 < front.0 { back } else { front }),
        (None, back) => back,
        (front, None) => front,
    }
}
