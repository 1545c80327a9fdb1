//! The tables of queries.

/// Queries of one kind, one a line, and the documents on which they are compared.
pub(crate) struct Group {
    pub(crate) name: &'static str,
    /// The bytes of the documents.
    pub(crate) bytes: &'static [u8],
    /// The most bytes of a document.
    pub(crate) most: u16,
    /// The most bytes of a piece, but for the last one.
    pub(crate) most_piece: usize,
    pub(crate) texts: &'static str,
}

/// The most bytes of a document that is compared after pieces of a few bytes.
const SHORT: u16 = 20;

/// The most bytes of such a piece.
const SHORT_PIECE: usize = 4;

/// The queries of which drawn documents are cut into pieces.
pub(crate) static GROUPS: [Group; 8] = [
    Group {
        name: "captures",
        bytes: b"abc",
        most: SHORT,
        most_piece: SHORT_PIECE,
        texts: r"/!x{a}c/
/!x{a*}/
/!x{(a|b)*a(a|b)}/
/!x{a*}!y{b*}/
/!x{!y{a*}!z{b*}}/
/(a|b)*a(a|b){3}!x{b}/",
    },
    Group {
        name: "bounds",
        bytes: b"ab",
        most: SHORT,
        most_piece: SHORT_PIECE,
        texts: r"/!x{a}$/
/^!x{a*}b/
/^!x{[ab]*}$/
/^$/
/b()$/",
    },
    Group {
        name: "optional",
        bytes: b"ab",
        most: SHORT,
        most_piece: SHORT_PIECE,
        texts: r"/!x{a}|b/
/(!x{a})?!y{b}/
/a(!x{()})?b/
/(!x{aa})?(!y{b+})?$/",
    },
    Group {
        name: "union",
        bytes: b"abc",
        most: SHORT,
        most_piece: SHORT_PIECE,
        texts: r"/!x{a}/ union /!y{b}/
/!x{a+}c/ union /!x{b+}c/
project none (/!x{a}/ union /!x{b}$/)",
    },
    Group {
        name: "join",
        bytes: b"abc",
        most: SHORT,
        most_piece: SHORT_PIECE,
        texts: r"/!x{a*}/ join /b/
/!x{a*}!y{b*}/ join /!x{.*}!y{.+}/
/!x{a}/ join /!y{b}$/
let w = /!x{a+}/; w join (w union /!x{b}/)",
    },
    Group {
        name: "minus",
        bytes: b"ab",
        most: SHORT,
        most_piece: SHORT_PIECE,
        texts: r"/!x{a+}/ minus /!x{aa}/
/!x{[ab]+}/ minus /!x{.*a}$/
/!x{a}(!y{b})?/ minus /!x{a}!y{b}/",
    },
    Group {
        name: "characters",
        bytes: b"a\xc3\xa9",
        most: SHORT,
        most_piece: SHORT_PIECE,
        texts: r"/!x{é?}/
/!x{[é-ü]|a}/u
/!x{\p{L}+}/u",
    },
    Group {
        name: "texts",
        bytes: b"abc",
        most: 2000,
        most_piece: 300,
        texts: r"/!x{abcab}/
/a!x{bcc}(!y{a})?b(b|c)/
/!x{(abb|cac)aa}/
/!x{[bc]+}abca/
/!x{aabb}/ union /!x{bbaa}/",
    },
];

/// A query, a limit of weight, and the pieces that are appended one after the other.
pub(crate) struct Script {
    pub(crate) text: &'static str,
    pub(crate) limit: u64,
    pub(crate) pieces: &'static [&'static str],
}

/// Two documents whose rows come and go, one that is refused in a piece and then in everything, and one whose rows are
/// refused while it goes on.
pub(crate) static SCRIPTS: [Script; 4] = [
    Script {
        text: "/!x{ab}/",
        limit: 1_000_000,
        pieces: &["a", "", "bab"],
    },
    Script {
        text: "/!x{a}$/",
        limit: 1_000_000,
        pieces: &["a", "a", "b"],
    },
    Script {
        text: "/!x{aab}/",
        limit: 8,
        pieces: &["", "a", "aab", "", "b"],
    },
    Script {
        text: "/^!x{a}$/",
        limit: 7,
        pieces: &["a", "b", ""],
    },
];
