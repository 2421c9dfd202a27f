//! What a rewriter says of tags.
ghost use Rattle.std.specs.Prelude.{◌≡◌};
ghost use Rattle.html5ever_interface.specs.Token.{tag_of};
ghost use Rattle.html5rewrite.specs.Rewriter.{keep_of, reads_markup_after, reads_markup_by_kind};

use html5ever_interface::interface::token::{Tag, TagKind};
use html5sinks::replies::raw_text_in;
use html5sinks::tags::SaysTag;
use std::alloc::{AllocError, Allocator};

/// What happens to a tag.
#[derive(Clone, Copy, Debug, PartialEq, Eq)]
pub enum Keep {
    /// It is written as the rewriter leaves it, and the content of its element is kept.
    Tag,
    /// It is dropped, and the content of its element is kept.
    ContentOnly,
    /// It is dropped with the content of its element, up to its end tag. An end tag, and a tag of an
    /// element that has no content, as `<br>`, is dropped alone.
    Nothing,
}

/// Says what happens to tags: `impl<A: Allocator> TagRewriter<Tag<A>> for MyRewriter`. Its answer
/// depends on the tag and the rewriter alone. It isn't called for tags in a dropped element.
pub trait TagRewriter<T: SaysTag>: Drop {
    ghost use Rattle.std.specs.Prelude.{◌≡◌, OnOk};
    ghost use Rattle.html5rewrite.specs.Rewriter.{Rewriter};

    // What happens to each tag, and the tag that is written if it is kept.
    ghost means: { Self → Rewriter };

    /// What happens to a tag. It is called for each start tag and each end tag by itself: what it
    /// answers to `<b>` it mostly answers to `</b>` too.
    fn keep(&self, tag: &T) -> Keep
        ensures { result ≡ (means self.now).keeps (T.tag tag.now) };

    /// Changes a tag that is kept to the one that is written. Where it finds no memory for that, the
    /// tokenizer stops.
    fn rewrite(&self, tag: &mut T) -> Result<(), AllocError>
        ensures { OnOk result (T.tag tag.new ≡ (means self.now).rewritten (T.tag tag.old)) };
}

/// Whether the text after a start tag of this name is read as markup, also by a reader with
/// scripting, for whom a `noscript` is raw text.
pub fn reads_markup_after(name: &str) -> bool
    ensures { result ≡ reads_markup_after name.now }
{
    raw_text_in(name).is_none() && name != "plaintext" && name != "noscript"
}

// Whether the text after a tag is read as markup.
fn reads_markup<A: Allocator>(tag: &Tag<A>) -> bool
    ensures { result ≡ reads_markup_by_kind (tag_of tag.now).kind (tag_of tag.now).name }
{
    match tag.kind {
        TagKind::StartTag => reads_markup_after(&tag.name.0),
        TagKind::EndTag => true,
    }
}

/// What happens to a tag, where an element whose text is not read as markup is dropped with it.
pub fn keep_of<H: TagRewriter<Tag<A>>, A: Allocator>(rewriter: &H, tag: &Tag<A>) -> Keep
    ensures { result ≡ keep_of (H.means rewriter.now) (tag_of tag.now) }
{
    if reads_markup(tag) {
        rewriter.keep(tag)
    } else {
        Keep::Nothing
    }
}
