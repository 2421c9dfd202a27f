//! Tokens as they are written.

/// The source of a token, with the run of text before it.
#[derive(Clone, Copy, Debug, PartialEq, Eq)]
pub struct Cut<'t> {
    /// The source of the run, with its references and with what tells no token, as `</>`.
    pub run: &'t str,
    /// The text that it tells.
    pub text: &'t str,
    /// The source of the token. The end of the page is written as nothing.
    pub source: &'t str,
    /// The number of the line that the tokenizer has reached.
    pub line_number: u64,
}
