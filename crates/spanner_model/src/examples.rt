//! What queries answer on small documents, each the contract of a function that does nothing.
ghost use Rattle.spanner_model.specs.Examples.{EachPart, EmptyDocument, Tied, ManyWays, Neighbours, Nested, Joined, Projected, ProjectedToNone, BlocksBeforeTuples};
ghost use Rattle.spanner_model.specs.Examples.{OptionalRows, MaybeRows, UnionRows, UnsureJoin};

/// `/!x{a*}/` on `aa`.
pub fn each_part()
    ensures { EachPart }
{}

/// `/!x{a*}/` on the empty document.
pub fn empty_document()
    ensures { EmptyDocument }
{}

/// `/^!x{a*}$/` on `aa`.
pub fn tied()
    ensures { Tied }
{}

/// `/!x{a}(a|aa)*/` on `aaa`.
pub fn many_ways()
    ensures { ManyWays }
{}

/// `/!x{a+}!y{b+}/` on `aabb`.
pub fn neighbours()
    ensures { Neighbours }
{}

/// `/!x{a!y{b}c}/` on `abcabc`.
pub fn nested()
    ensures { Nested }
{}

/// `/!x{[ab]+}/ join /!x{.}b/` on `aab`.
pub fn joined()
    ensures { Joined }
{}

/// `project x (/!x{a}!y{b*}/)` on `abb`.
pub fn projected()
    ensures { Projected }
{}

/// `project none (/!x{a}/)` on `aa`.
pub fn projected_to_none()
    ensures { ProjectedToNone }
{}

/// `/!x{a}|b/` on `ab`.
pub fn optional_rows()
    ensures { OptionalRows }
{}

/// `/(!x{a})?b/` on `ab`.
pub fn maybe_rows()
    ensures { MaybeRows }
{}

/// `/!x{a}/ union /!y{a}/` on `a`.
pub fn union_rows()
    ensures { UnionRows }
{}

/// `/!x{a}|b/ join /!x{.}/` on `ab`.
pub fn unsure_join()
    ensures { UnsureJoin }
{}

/// `x=0-1 y=1-2 z=0-1` and `x=0-1 y=1-1 z=1-1`.
pub fn blocks_before_tuples()
    ensures { BlocksBeforeTuples }
{}
