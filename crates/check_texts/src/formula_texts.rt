//! Formulas whose readings were worked out by hand.

/// Formulas, a line each, and what is to come of them.
pub(crate) struct Lines {
    /// A fault, its place, and a text that has it.
    pub faults: &'static str,
    /// The place after the closing slash or the sign behind it, and the text of an atom.
    pub atoms: &'static str,
    /// The runs of a set of bytes, and a text that stands for it.
    pub sets: &'static str,
}

/// Formulas over bytes, and formulas over characters.
pub static FORMULAS: [Lines; 2] = [
    Lines {
        faults: FAULTS,
        atoms: ATOMS,
        sets: SETS,
    },
    Lines {
        faults: CHARACTER_FAULTS,
        atoms: CHARACTER_ATOMS,
        sets: CHARACTER_SETS,
    },
];

const FAULTS: &str = "\
Unexpected 1 /*a/
Unexpected 1 /+/
Unexpected 1 /?/
Unexpected 1 /{2}/
Unexpected 1 /{/
Unexpected 3 /a|*/
Unexpected 2 /(*)/
Unexpected 4 /(a|{1})/
Unexpected 4 /!x{+}/
Unexpected 2 /^*/
Unexpected 1 /)/
Unexpected 2 /a)/
Unexpected 1 /}/
Unexpected 2 /a}/
Unexpected 1 /]/
Unexpected 3 /(a]/
Unexpected 3 /a*]/
Unclosed 0 /
Unclosed 0 /a
Unclosed 0 /a|
Unclosed 1 /(a/
Unclosed 1 /(a
Unclosed 1 /((a)/
Unclosed 2 /((a/
Unclosed 1 /!x{a/
Unclosed 1 /!x{a
Unclosed 1 /!x{
Unclosed 1 /!x{a)/
Unclosed 1 /(a}/
Unclosed 2 /(!x{a)}/
Unclosed 4 /!x{(a}/
Unclosed 4 /(a)(b/
BadEscape 1 /\\q/
BadEscape 1 /\\D/
BadEscape 1 /\\b/
BadEscape 1 /\\0/
BadEscape 1 /\\ /
BadEscape 1 /\\x4/
BadEscape 1 /\\xg0/
BadEscape 1 /\\x0g/
BadEscape 1 /\\
BadEscape 3 /a(\\x/
BadRepeat 2 /a{/
BadRepeat 2 /a{
BadRepeat 2 /a{}/
BadRepeat 2 /a{,3}/
BadRepeat 2 /a{1,2,3}/
BadRepeat 2 /a{3,2}/
BadRepeat 2 /a{1001}/
BadRepeat 2 /a{00001}/
BadRepeat 2 /a{1,1001}/
BadRepeat 2 /a{1 }/
BadRepeat 2 /a{x}/
BadRepeat 2 /a{1
BadRepeat 2 /a{1,/
BadRepeat 4 /(a){-1}/
DoubleRepeat 3 /a**/
DoubleRepeat 3 /a*+/
DoubleRepeat 3 /a+?/
DoubleRepeat 5 /a{2}{3}/
DoubleRepeat 3 /a*{zz/
DoubleRepeat 6 /a{1,}*/
Anchor 2 /a$b/
Anchor 2 /a^/
Anchor 2 /^^a/
Anchor 2 /(^a)/
Anchor 3 /(a$)/
Anchor 3 /a|^b/
Anchor 1 /$$/
Anchor 2 /a$
Anchor 2 /a$)/
Anchor 5 /!x{a$}/
Anchor 3 /(a$/
Anchor 2 /a$*/
NameTooLong 1 /!aaaaaaaaaaaaaaaaaaaaaaaaaaaaaaaaa{a}/
NameTooLong 2 /(!aaaaaaaaaaaaaaaaaaaaaaaaaaaaaaaaa{a})/
ReservedName 1 /!none{a}/
ReservedName 1 /!none{
ReservedName 4 /!x{!none{a}}/
TooDeep 101 /(((((((((((((((((((((((((((((((((((((((((((((((((((((((((((((((((((((((((((((((((((((((((((((((((((((/
TooDeep 101 /((((((((((((((((((((((((((((((((((((((((((((((((((((((((((((((((((((((((((((((((((((((((((((((((((((!x{
ReservedName 101 /((((((((((((((((((((((((((((((((((((((((((((((((((((((((((((((((((((((((((((((((((((((((((((((((((((!none{
NameTooLong 101 /((((((((((((((((((((((((((((((((((((((((((((((((((((((((((((((((((((((((((((((((((((((((((((((((((((!aaaaaaaaaaaaaaaaaaaaaaaaaaaaaaaaa{
Unclosed 1 /[/
Unclosed 1 /[
Unclosed 1 /[^
Unclosed 1 /[a/]/
Unclosed 1 /[a-/
Unclosed 1 /[a-
Unclosed 3 /(a[b/
Unexpected 2 /[]/
Unexpected 3 /[^]/
Unexpected 2 /[]a]/
Unexpected 3 /[a[b]]/
Unexpected 4 /[a-[b]]/
Unexpected 3 /[aé]/
Unexpected 4 /[a-é]/
BadRange 2 /[z-a]/
BadRange 2 /[a-\\d]/
BadRange 2 /[\\d-z]/
BadRange 3 /[ab-a]/
BadRange 1 /[^\\x00-\\xff]/
BadRange 1 /[^\\x00-\\x7f\\x80-\\xff]/
BadEscape 3 /[a\\q]/
BadEscape 4 /[a-\\q]/
BadEscape 2 /[\\x]/
Unexpected 4 /[a]]/
";

const ATOMS: &str = "\
2 //
3 /^/
3 /$/
4 /^$/
3 /a/b/
4 /a!/
3 /!/
6 /!{3}/
8 /!1x{2}/
4 /a|/
4 /()/
6 /(a)*/
9 /a{1000}/
6 /a{0}/
7 /a{2,}/
11 /a{0,1000}/
9 /a{0002}/
7 /!x{a}/
9 /!x1_{a}/
38 /!aaaaaaaaaaaaaaaaaaaaaaaaaaaaaaaa{a}/
5 /é+/
202 /(((((((((((((((((((((((((((((((((((((((((((((((((((((((((((((((((((((((((((((((((((((((((((((((((((())))))))))))))))))))))))))))))))))))))))))))))))))))))))))))))))))))))))))))))))))))))))))))))))))))/
3 /a/
5 /[a]/
6 /[a-]/
6 /[^^]/
4 /\\//
";

const SETS: &str = "\
97-97 /a/
32-32 / /
0-9,11-255 /./
48-57 /\\d/
48-57,65-90,95-95,97-122 /\\w/
9-13,32-32 /\\s/
10-10 /\\n/
9-9 /\\t/
13-13 /\\r/
65-65 /\\x41/
255-255 /\\xfF/
0-0 /\\x00/
46-46 /\\./
92-92 /\\\\/
47-47 /\\//
95-95 /\\_/
126-126 /\\~/
45-45 /-/
33-33 /!/
97-97 /[a]/
97-99 /[a-c]/
0-96,100-255 /[^a-c]/
45-45,97-99,101-101 /[a-c-e]/
45-45,97-97 /[a-]/
45-45,97-97 /[-a]/
45-97 /[--a]/
43-45 /[+--]/
0-44,46-96,98-255 /[^-a]/
94-94,97-97 /[a^]/
0-93,95-255 /[^^]/
93-93 /[\\]]/
46-46 /[.]/
36-36,40-40,42-42 /[$*(]/
9-13,32-32,48-57 /[\\d\\s]/
65-67 /[\\x41-\\x43]/
97-97 /[a-a]/
45-45,48-57,65-90,95-95,97-122 /[\\w-]/
10-13 /[\\n-\\r]/
97-97 /[aa]/
97-97,99-99 /[ca]/
97-99 /[b-ca]/
97-99,101-103 /[a-ce-g]/
45-45 /[--]/
45-45 /[---]/
0-44,46-255 /[^-]/
45-101 /[a-c--e]/
47-47,91-92 /[\\[\\/\\\\]/
94-94,97-97 /[\\^a]/
45-45,97-97,99-99 /[a\\-c]/
65-93 /[A-\\]]/
97-122 /[a-\\x7A]/
0-255 /[\\x00-\\xff]/
255-255 /[^\\x00-\\xFE]/
33-33,36-36,40-43,46-46,63-63,123-125 /[{}()|*+?.$!]/
";

const CHARACTER_FAULTS: &str = "\
UnknownProperty 1 /\\p{Xx}/u
UnknownProperty 1 /\\p{Cs}/u
UnknownProperty 1 /\\p{lu}/u
UnknownProperty 1 /\\p{_}/u
UnknownProperty 3 /[a\\p{Luu}]/u
UnknownProperty 4 /[a-\\p{Xx}]/u
BadEscape 1 /\\p{}/u
BadEscape 1 /\\p/u
BadEscape 1 /\\pL/u
BadEscape 1 /\\p{L /u
BadEscape 1 /\\p{^L}/u
BadEscape 1 /\\P{L}/u
BadEscape 1 /\\u/u
BadEscape 1 /\\u{}/u
BadEscape 1 /\\u{D800}/u
BadEscape 1 /\\u{DFFF}/u
BadEscape 1 /\\u{110000}/u
BadEscape 1 /\\u{0000041}/u
BadEscape 1 /\\u{4g}/u
BadEscape 1 /\\u{41/u
BadEscape 1 /\\u0041/u
BadEscape 1 /\\x80/u
BadEscape 1 /\\xff/u
BadEscape 2 /[\\u{D800}]/u
BadEscape 1 /\\q/u
BadRange 2 /[\\p{Lu}-z]/u
BadRange 2 /[a-\\p{Lu}]/u
BadRange 2 /[ü-à]/u
BadRange 2 /[\\d-z]/u
BadRange 1 /[^\\x00-\\u{10FFFF}]/u
BadRange 1 /[^\\u{0}-\\u{D7FF}\\u{E000}-\\u{10FFFF}]/u
Unclosed 1 /(a/u
Unclosed 1 /[a/u
Unexpected 1 /*é/u
Unexpected 2 /[]/u
Unexpected 2 /[é]/ux
";

const CHARACTER_ATOMS: &str = "\
4 /a/u
4 /a/u b
4 /a/u-
4 /a/u/
3 /a/ub
3 /a/u_
3 /a/u1
3 /a/uu
3 /a/v
3 /a/
6 /a\\//u
5 /é/u
6 /é+/u
7 /[é]/u
10 /[à-ü]/u
9 /[^é]*/u
8 /\\p{L}/u
17 /\\p{Alphabetic}/u
8 /\\u{0}/u
13 /\\u{10FFFF}/u
12 /[\\p{Lu}a]/u
11 /[^\\p{L}]/u
12 /[\\p{Lu}-]/u
4 /^/u
";

const CHARACTER_SETS: &str = "\
97-97 /a/u
97-97 /\\u{61}/u
97-97 /[\\u{061}]/u
97-99 /[a-c]/u
48-57 /\\d/u
48-57,65-90,95-95,97-122 /\\w/u
9-13,32-32 /[\\s]/u
127-127 /\\x7f/u
0-127 /[^\\u{80}-\\u{10FFFF}]/u
45-45,97-97 /[a-]/u
";
