//! The end of an attribute.
#![tactic(auto, using(crate::proofs::Tellings::tells_from_memory), unfolding(html5reading::specs::Tag::duplicate_error))]

ghost use Rattle.std.specs.Prelude.{◌≡◌, OnOk};
ghost use Rattle.html5reading.specs.Tag.{with_last_attribute, duplicate_error};
ghost use Rattle.html5partial.specs.CurrentTag.{open_tag};
ghost use Rattle.html5states.specs.Telling.{Emits};

use crate::teller::Teller;
use html5ever_interface::interface::message::FixedMessage;
use html5ever_interface::interface::sink::TokenSink;
use html5ever_interface::interface::token::Token;
use html5partial::current_tag::CurrentTag;
use html5partial::error::TokenizerError;
use std::alloc::Allocator;

impl<S: TokenSink<Token<A>>, A: Allocator + Copy> Teller<'_, S, A> {
    /// Ends the last attribute, if there is one, as the standard's "Attribute name state" asks. It is
    /// dropped, with an error, where the tag already has its name.
    #[inline(always)]
    pub fn finish_attribute(&mut self, tag: &mut CurrentTag<A>) -> Result<(), TokenizerError>
        ensures emits { Emits S.means S.faults result self.old self.new
            (duplicate_error (open_tag tag.old)) }
        ensures finished { OnOk result (open_tag tag.new ≡ with_last_attribute (open_tag tag.old)) }
    {
        let repeated = tag.end_attribute(self.alloc)?;
        self.emit_message_where(repeated, FixedMessage::DuplicateAttribute)
    }
}
