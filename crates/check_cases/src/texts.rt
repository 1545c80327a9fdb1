//! The tables of queries.

/// Queries, one a line, and the bytes of the documents on which they are checked.
pub struct Group {
    pub bytes: &'static [u8],
    pub texts: &'static str,
}

/// The queries that are checked on all short documents: each operation, alone and inside another, names of names, and
/// captures that may be left out.
pub static GROUPS: [Group; 4] = [
    Group {
        bytes: b"ab",
        texts: ATOMS,
    },
    Group {
        bytes: b"ab",
        texts: EXPRESSIONS,
    },
    Group {
        bytes: b"abc",
        texts: r"/!x{a!y{b}c}/
/!x{[a-b]+}c/
/!x{(a|b|c)b?}/",
    },
    Group {
        bytes: b"\xc3\xa9",
        texts: r"/!x{é?}/
/!x{[é-ü]|\p{Lu}}/u",
    },
];

/// Atoms over `a` and `b`.
const ATOMS: &str = r"/!x{a*}/
/!x{aba}/
/!x{a|aa}/
/^!x{a*}$/
/!x{a*}$/
/!x{a}(a|aa)*/
/(!x{a}|!x{aa})b*/
/!x{(a|b)*a(a|b)}/
/(a|b)*a(a|b){2}!x{b}/
/ab/
/()/
/^$/
/!x{}/
/^!x{}$/
/!x{[^a]}/
/!x{a?b?}/
/!x{a{1,2}}b/
/!x{(a*)*}/
/^!x{((ab?)*)*}$/
/!x{((a?b?){2}a)*}/
/^!x{((ab|b){2,}a?)*}$/
/^!x{(ab?){3}}$/
/^!x{(ab?){3,}}$/
/a{0}!x{b{0,2}a}/
/!x{a}!y{b}/
/!x{a*}!y{a*}/
/^!x{a*}!y{b*}$/
/!x{}!y{}/
/!x{a!y{b*}}/
/!x{!y{}}/
/!x{a}!y{b}|!y{a}!x{b}/
/!x{!y{a*}!z{b*}}/
/!x{a}|b/
/(!x{a})?!y{b}/
/a(!x{()})?b/
/a*!x{b}/";

/// Unions, joins, projections and lets over `a` and `b`.
const EXPRESSIONS: &str = r"/!x{a}/ union /!x{b}/
/!x{a}/ union /!x{a}/
/!x{a}/ union /!y{b}/
/!x{a*}/ join /b/
/!x{a}/ join /!y{b}/
/!x{[ab]+}/ join /!x{.}b/
/!x{}/ join /!x{a*}/
/!x{a}b/ join /b!x{a}/
/^!x{a*}/ join /!x{a*}b*$/
/!x{a*}!y{b*}/ join /!x{.*}!y{.+}/
(/!x{a}/ union /!x{aa}/) join (/!x{a+}b/ union /b!x{a+}/)
project x (/!x{a}!y{b*}/)
project none (/!x{a}/)
project none (/!x{a}/ union /!x{b}/)
project none (/!x{a}/) union /b/
project x (/!x{a*}/ join /!y{b+}/)
project x (/!x{.}!y{.*}/) join project x (/!y{.*}!x{.}/)
let w = /!x{a+}/; w join (w union /!x{b}/)
let w = /!x{a}!y{b}/; project x (w) join project y (w)
let u = /!x{a}/; let v = u; let w = v; v union w
let u = /!x{a*}!y{b}/; let v = project x, y (u); let w = project x (v); let z = v union /!x{b}!y{a}/; w join z
let u = /!x{a}(!y{b})?/; u join /!x{.}/";

/// Two queries, whose automata are joined, united and subtracted with their variables forgotten.
#[derive(Clone, Copy)]
pub struct Pair {
    pub first: &'static str,
    pub second: &'static str,
}

/// The pairs of queries, over `a` and `b`.
pub static PAIRS: [Pair; 5] = [
    Pair {
        first: "/^(a|b)*a$/",
        second: "/ab/",
    },
    Pair {
        first: "/^a*$/",
        second: "/^(ab)*$/",
    },
    Pair {
        first: "/!x{a}b/",
        second: "/!x{.}/ join /!y{b}$/",
    },
    Pair {
        first: "/aa/ union /b/",
        second: "/^.?.?$/",
    },
    Pair {
        first: "/^((a|b){2})*$/",
        second: "/a(a|b)$/",
    },
];

/// Queries at the limits: an atom at the limit of states and one at that of ways, one for each of two refusals by an
/// atom, sets of markers at the limit and past it, a union that is refused for its states, and a join for its pairs.
pub const LARGE: &str = r"/^(a{1000}){19}a{999}$/
/(a{1000}){20}/
/((((){1000}){1000}){1000}){1000}/
/^(a?){1000}(a?){999}$/
/((a?){1000}){3}/
/^((((((((a{1000}){1000}){1000}){1000}){1000}){1000}){1000}){1000})$/
/^(!a{})?(!b{})?(!c{})?(!d{})?(!e{})?(!f{})?(!g{})?(!h{})?(!i{})?(!j{})?(!k{})?(!l{})?(!m{})?(!n{})?(!o{})?(!p{})?$/
/(a{1000}){10}/ union /(a{1000}){10}/
let many = /^(a{150})*$/ join /^(a{151})*$/; /a/";
