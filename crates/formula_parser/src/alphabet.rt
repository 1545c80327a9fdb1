//! What a formula is over.

/// Bytes, or characters in an atom with the sign `u`.
#[derive(Clone, Copy, Debug)]
pub(crate) enum Alphabet {
    Bytes,
    Characters,
}
