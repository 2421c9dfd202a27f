//! Contents that are put into a page.
ghost use Rattle.std.specs.Prelude.{◌≡◌, ◌++◌, IfOk, OnOk, string_bytes};
ghost use Rattle.html5amend.specs.Contents.{content_bytes};

use html5ever_interface::states::RawKind;
use html5serialize::push_raw_text;
use std::alloc::{AllocError, Allocator};

/// What is put into a page.
#[derive(Clone, Copy, Debug, PartialEq, Eq)]
pub enum Content<'t> {
    /// A text: characters that are markup are written as references.
    Text(&'t str),
    /// HTML, which is written as it is.
    Html(&'t str),
}

// Appends a content.
pub fn push_content<A: Allocator>(
    out: &mut String<A>,
    content: Content<'_>,
) -> Result<(), AllocError>
    ensures { OnOk result (string_bytes out.new ≡ string_bytes out.old ++ content_bytes content.entry) }
{
    match content {
        // Escaped, as in RCDATA: so it is read there and elsewhere.
        Content::Text(text) => push_raw_text(out, RawKind::Rcdata, text),
        Content::Html(html) => out.push_str(html),
    }
}

// A content, with a text after it.
pub fn content_before<A: Allocator + Copy>(
    alloc: A,
    content: Content<'_>,
    text: &str,
) -> Result<String<A>, AllocError>
    ensures { IfOk result (λ both. string_bytes both ≡ content_bytes content.entry ++ text.now) }
{
    let mut both = String::new(alloc);
    push_content(&mut both, content)?;
    both.push_str(text)?;
    Ok(both)
}
