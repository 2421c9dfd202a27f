//! What the tokenizer is asked to do after a token.
use html5ever_interface::states::RawKind;
use std::alloc::Allocator;

/// What the tokenizer is asked to do after a token.
#[derive(Drop)]
pub enum Request<H, A: Allocator> {
    /// To go on.
    GoOn,
    /// To read raw text.
    ReadRaw(RawKind),
    /// To read plain text.
    ReadPlain,
    /// To run a script, which was just closed.
    Run(H),
    /// To change the encoding, by the value of a `charset` attribute.
    UseCharset(String<A>),
    /// To change the encoding, by the value of a `content` attribute.
    UseContent(String<A>),
}
