//! Elements with raw text as they are written.
ghost use Rattle.std.specs.Prelude.{◌≡◌, ◌++◌, chars, encode_utf8_all, string_bytes, OnOk};
ghost use Rattle.html5ever_interface.specs.Token.{tag_of};
ghost use Rattle.html5serialize.specs.Pages.{part_text};
ghost use Rattle.html5serialize.specs.Pages.Part.{Element};
ghost use Rattle.html5serialize.specs.RawTexts.{end_text};

use crate::raw_texts::push_raw_text;
use crate::tags::push_tag;
use html5ever_interface::interface::token::Tag;
use html5ever_interface::states::RawKind;
use std::alloc::{AllocError, Allocator};

// Appends the end tag of that name.
fn push_end<A: Allocator>(out: &mut String<A>, name: &str) -> Result<(), AllocError>
    ensures { OnOk result (string_bytes out.new ≡ string_bytes out.old ++ encode_utf8_all (end_text (chars name.now))) }
{
    out.push_str("</")?;
    out.push_str(name)?;
    out.push_str(">")?;
    Ok(())
}

/// Appends a start tag, raw text of that kind, and the end tag, whether they can be written or not. On Err a
/// part of that may stand there.
pub fn push_element<A: Allocator>(
    out: &mut String<A>,
    tag: &Tag<A>,
    kind: RawKind,
    text: &str,
) -> Result<(), AllocError>
    ensures { OnOk result (string_bytes out.new
        ≡ string_bytes out.old ++ encode_utf8_all (part_text (Element (tag_of tag.now) kind text.now))) }
{
    push_tag(out, tag)?;
    push_raw_text(out, kind, text)?;
    push_end(out, &tag.name.0)?;
    Ok(())
}
