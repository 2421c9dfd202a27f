//! The end of a tag: its last attribute and its errors.
#![tactic(auto, using(crate::proofs::Tellings::tells_from_memory), unfolding(html5reading::specs::Machine::closing_step, html5partial::specs::Steps::tokens_of, html5partial::specs::Steps::afterwards))]

ghost use Rattle.std.specs.Prelude.{◌≡◌, [], ◌++◌, ◌&&◌, not, nat_eq, length, OnOk};
ghost use Rattle.html5reading.specs.Machine.{closing_step};
ghost use Rattle.html5reading.specs.Tag.{is_end_tag, duplicate_error, end_tag_errors};
ghost use Rattle.html5reading.specs.Tag.{with_last_attribute};
ghost use Rattle.html5partial.specs.CurrentTag.{open_tag};
ghost use Rattle.html5states.specs.Telling.{Emits, Reads};

use crate::teller::Teller;
use html5ever_interface::interface::message::FixedMessage;
use html5ever_interface::interface::sink::TokenSink;
use html5ever_interface::interface::token::{TagKind, Token};
use html5ever_interface::states::State;
use html5partial::current_tag::CurrentTag;
use html5partial::error::TokenizerError;
use html5partial::opened::{Opened, Progress, Step};
use std::alloc::Allocator;

// Whether the kind is that of an end tag.
fn is_end_tag(kind: TagKind) -> bool
    ensures { result ≡ is_end_tag kind }
{
    matches!(kind, TagKind::EndTag)
}

// Whether the tag is an end tag with attributes.
fn has_wrong_attributes<A: Allocator>(tag: &CurrentTag<A>) -> bool
    ensures { result ≡ is_end_tag tag.now.indexed.kind && not (nat_eq (length (open_tag tag.now).attributes) 0) }
{
    is_end_tag(tag.indexed.kind()) && tag.indexed.has_attributes()
}

// Whether the tag is an end tag that closes itself.
fn has_wrong_solidus<A: Allocator>(tag: &CurrentTag<A>, self_closing: bool) -> bool
    ensures { result ≡ is_end_tag tag.now.indexed.kind && self_closing }
{
    is_end_tag(tag.indexed.kind()) && self_closing
}

impl<S: TokenSink<Token<A>>, A: Allocator + Copy> Teller<'_, S, A> {
    // Sends the errors of an end tag that has attributes, or closes itself.
    fn emit_end_tag_errors(
        &mut self,
        tag: &CurrentTag<A>,
        self_closing: bool,
    ) -> Result<(), TokenizerError>
        ensures { Emits S.means S.faults result self.old self.new
            (end_tag_errors (open_tag tag.now) self_closing) }
    {
        let attributes = has_wrong_attributes(tag);
        let solidus = has_wrong_solidus(tag, self_closing);
        self.emit_message_where(attributes, FixedMessage::AttributesOnEndTag)?;
        self.emit_message_where(solidus, FixedMessage::SelfClosingEndTag)
    }

    // Ends the last attribute of a tag that ends, and sends the errors of the tag.
    fn finish_tag(
        &mut self,
        tag: &mut CurrentTag<A>,
        self_closing: bool,
    ) -> Result<(), TokenizerError>
        ensures emits { Emits S.means S.faults result self.old self.new
            (duplicate_error (open_tag tag.old) ++ end_tag_errors
            (with_last_attribute (open_tag tag.old)) self_closing) }
        ensures finished { OnOk result (open_tag tag.new ≡ with_last_attribute (open_tag tag.old)) }
    {
        self.finish_attribute(tag)?;
        self.emit_end_tag_errors(tag, self_closing)
    }

    /// Ends the open tag at its `>`. The tag is sent after this, and the sink's reply to it may choose
    /// another state than Data.
    pub fn end_tag(&mut self, at: &mut Opened<A>, self_closing: bool) -> Step
        ensures { Reads S.means S.faults result self.old self.new
            (closing_step [] (open_tag at.old.tag) self_closing) at.old at.new }
    {
        at.state = State::Data;
        self.finish_tag(&mut at.tag, self_closing)?;
        at.tag.indexed.set_self_closing(self_closing);
        Ok(Progress::EndsTag)
    }
}
