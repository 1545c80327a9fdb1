//! The positions that an atom touches, on documents whose answers were worked out by hand.
ghost use Rattle.std.specs.Prelude.{◌≡◌, ◌^◌, ◌<◌, ◌≤◌, length};

use crate::fault::Fault;
use query_parser::read_query;
use segment_filter::touched;
use span_core::{Steps, Touched};
use spanner_model::Expr;
use std::alloc::Global;
use std::marker::Brand;
use std::sync::ledger::{Blank, Ledger};

/// More than any of the examples weighs.
const MOST: u64 = 8_000_000;

/// An atom, a document, and the intervals of the positions that it touches.
pub(crate) struct Touching {
    pub text: &'static str,
    document: &'static [u8],
    parts: &'static [(u32, u32)],
}

/// A part that leads to no end is not touched; one that does is, from its start to its end; ties hold it at the start
/// and at the end; and what fits the empty string touches all.
pub static TOUCHING: [Touching; 11] = [
    Touching {
        text: "/!x{a+}!y{a+}b/",
        document: b"aaaaaaaa",
        parts: &[],
    },
    Touching {
        text: "/!x{a+}!y{a+}b/",
        document: b"aaaab",
        parts: &[(0, 5)],
    },
    Touching {
        text: "/!x{aab}/",
        document: b"xxxxaabxxxx",
        parts: &[(4, 7)],
    },
    Touching {
        text: "/!x{aab}/",
        document: b"aabxaab",
        parts: &[(0, 7)],
    },
    Touching {
        text: "/!x{aab}/",
        document: b"aabxxaab",
        parts: &[(0, 3), (5, 8)],
    },
    Touching {
        text: "/^ab/",
        document: b"abxab",
        parts: &[(0, 2)],
    },
    Touching {
        text: "/ab$/",
        document: b"abxab",
        parts: &[(3, 5)],
    },
    Touching {
        text: "/^ab$/",
        document: b"abxab",
        parts: &[],
    },
    Touching {
        text: "/!x{a*}/",
        document: b"xax",
        parts: &[(0, 3)],
    },
    Touching {
        text: "/!x{a*}/",
        document: b"",
        parts: &[(0, 0)],
    },
    Touching {
        text: "/!x{a*}$/",
        document: b"xbx",
        parts: &[(3, 3)],
    },
];

/// Checks one of the table.
pub(crate) fn check_touching(alloc: Global, one: &Touching) -> Result<(), Fault> {
    let found = parts_touched(alloc, one.text, one.document)?;
    if found.as_slice() != one.parts {
        return Err(Fault::Touched { parts: found });
    }
    Ok(())
}

/// The intervals of the positions that the atom of the text touches.
fn parts_touched(alloc: Global, text: &str, document: &[u8]) -> Result<Vec<(u32, u32)>, Fault> {
    let touched = touched_by::<Brand>(alloc, Blank::new(1), text.as_bytes(), document)?;
    Ok(touched.parts().to_vec(alloc)?)
}

fn touched_by<L: Ledger>(
    alloc: Global,
    blank: Blank,
    text: &[u8],
    document: &[u8],
) -> Result<Touched, Fault>
    requires name { blank.name ≡ L.name }
    requires parts { blank.parts ≡ L.parts }
    requires some { 0 < L.parts }
{
    let mut steps = Steps::<L>::new(blank);
    let query = read_query(alloc, text)?;
    let Expr::Atom(atom) = &query.body else {
        return Err(Fault::NoAtom);
    };
    if document.len() > 100 {
        return Err(Fault::NoAtom);
    }
    Ok(touched(alloc, atom, document, MOST, &mut steps)?)
}
