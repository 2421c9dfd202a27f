/// What feeding a tokenizer answers.
#[derive(Debug, PartialEq, Eq, Drop)]
pub enum TokenizerResult<Handle, Text> {
    /// The queue is empty.
    Done,
    /// The sink asked to run a script after the tag that was sent last.
    Script(Handle),
    /// The sink asked to look at an encoding after the tag that was sent last.
    EncodingIndicator(Text),
}
