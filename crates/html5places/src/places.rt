//! Places in a text.

/// Where a token stands in a text, and the run of text before it, in bytes from the first of the text.
#[derive(Clone, Copy, Debug, PartialEq, Eq)]
pub struct Places {
    /// Where the run before the token begins. It ends where the token begins.
    pub text: usize,
    /// Where the token begins.
    pub begin: usize,
    /// The byte after its last.
    pub end: usize,
}
