//! What is sent when no keyword stands after `<!`, or after the name of a DOCTYPE.
#![tactic(auto, using(crate::proofs::Tellings::tells_from_memory), unfolding(html5reading::specs::Doctype::keyword_error))]

ghost use Rattle.std.specs.Prelude.{◌≡◌, ◌<◌, ◌+◌, Ok, true, string_bytes};
ghost use Rattle.html5ever_interface.specs.Token.{doctype_of};
ghost use Rattle.html5reading.specs.Doctype.{keyword_error, with_quirks};
ghost use Rattle.html5reading.specs.Start.DoctypePlace.{Skipped};
ghost use Rattle.html5reading.specs.Start.Open.{InDoctype, InBogusComment};
ghost use Rattle.html5reading.specs.Comment.{declaration_error};
ghost use Rattle.html5reading.specs.Slice.{tokens_of_late};
ghost use Rattle.html5partial.specs.CurrentTag.{opened_of, last_name_of};
ghost use Rattle.html5states.specs.Telling.{Emits};

use crate::teller::Teller;
use html5ever_interface::interface::sink::TokenSink;
use html5ever_interface::interface::token::Token;
use html5ever_interface::states::State;
use html5partial::error::TokenizerError;
use html5partial::opened::Opened;
use std::alloc::Allocator;

impl<S: TokenSink<Token<A>>, A: Allocator + Copy> Teller<'_, S, A> {
    /// The standard's "Markup declaration open state", when no keyword stands: sends that error, and
    /// begins a bogus comment with the held text.
    pub fn finish_declaration(&mut self, at: &mut Opened<A>) -> Result<(), TokenizerError>
        ensures emits { Emits S.means S.faults result self.old self.new
            (tokens_of_late (declaration_error self.old.exact_errors (string_bytes at.old.comment))) }
        ensures opened { opened_of at.new ≡ InBogusComment (string_bytes at.old.comment) }
        ensures last { last_name_of at.new ≡ last_name_of at.old }
    {
        at.state = State::BogusComment;
        self.emit_unexpected('!', State::MarkupDeclarationOpen)
    }

    /// The standard's "After DOCTYPE name state", when no keyword stands: sends that error, which
    /// names the first character that is held, and skips the rest.
    pub fn finish_doctype_keyword(&mut self, at: &mut Opened<A>) -> Result<(), TokenizerError>
        ensures emits { Emits S.means S.faults result self.old self.new
            (tokens_of_late (keyword_error self.old.exact_errors (string_bytes at.old.comment))) }
        ensures opened { opened_of at.new ≡ InDoctype Skipped (with_quirks (doctype_of at.old.doctype)) }
        ensures last { last_name_of at.new ≡ last_name_of at.old }
    {
        at.state = State::BogusDoctype;
        at.doctype.force_quirks = true;
        match at.comment.as_bytes().first() {
            Some(first) => self.emit_unexpected(char::from(*first), State::AfterDoctypeName),
            None => Ok(()),
        }
    }
}
