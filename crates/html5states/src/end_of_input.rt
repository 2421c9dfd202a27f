//! The end of input, in the state that is open.
#![tactic(auto, using(crate::proofs::Tellings::tells_from_memory), unfolding(html5reading::proofs::OnSteps::ends_by_state))]

ghost use Rattle.std.specs.Prelude.{◌≡◌, ◌∷◌, [], ◌++◌, false, codes, encode_utf8};
ghost use Rattle.std.specs.Str.{chars};
ghost use Rattle.html5ever_interface.specs.Token.{doctype_of};
ghost use Rattle.html5ever_interface.specs.Token.Told.{Text, Comment, End};
ghost use Rattle.html5ever_interface.specs.Token.{Told};
ghost use Rattle.html5reading.specs.Doctype.{with_quirks};
ghost use Rattle.html5reading.specs.Characters.{solidus, less_than};
ghost use Rattle.html5reading.specs.EndOfInput.{told_at_end_of, raw_end_error};
ghost use Rattle.html5reading.specs.ErrorText.{end_error_in};
ghost use Rattle.html5reading.specs.RawText.{texts, told_after_less_than};
ghost use Rattle.html5reading.specs.Comment.{comment_state, comment_content};
ghost use Rattle.html5reading.specs.Start.{raw_of, is_undecided_open};
ghost use Rattle.html5partial.specs.CurrentTag.{opened_of};
ghost use Rattle.html5states.specs.Telling.{Emits};

use crate::teller::Teller;
use html5ever_interface::interface::sink::TokenSink;
use html5ever_interface::interface::token::{Doctype, Token};
use html5ever_interface::states::AttrValueKind::Unquoted;
use html5ever_interface::states::{RawKind, ScriptEscapeKind, State};
use html5partial::comments::{content_len, is_comment_state, state_in_comment};
use html5partial::doctypes::is_doctype_state;
use html5partial::error::TokenizerError;
use html5partial::opened::Opened;
use std::alloc::Allocator;

// The state that the error of the end names after letters that may switch.
const DOUBLE_ESCAPED: State = State::RawData(RawKind::ScriptDataEscaped(
    ScriptEscapeKind::DoubleEscaped,
));

impl<S: TokenSink<Token<A>>, A: Allocator + Copy> Teller<'_, S, A> {
    /// Ends in a state that doesn't expect it.
    pub fn end_unexpected(&mut self, state: State) -> Result<(), TokenizerError>
        ensures { Emits S.means S.faults result self.old self.new
            (end_error_in self.old.exact_errors state ∷ End ∷ []) }
    {
        self.emit_end_error(state)?;
        self.emit(Token::EOFToken)
    }

    // Ends after a text of one character.
    fn end_after(&mut self, c: char) -> Result<(), TokenizerError>
        ensures { Emits S.means S.faults result self.old self.new
            (Text (encode_utf8 c) ∷ End ∷ []) }
    {
        self.emit_char(c)?;
        self.emit(Token::EOFToken)
    }

    // Ends after `</`, which is text.
    fn end_after_solidus(&mut self) -> Result<(), TokenizerError>
        ensures { Emits S.means S.faults result self.old self.new
            (Text (codes "<") ∷ Text (codes "/") ∷ End ∷ []) }
    {
        self.emit_char('<')?;
        self.end_after('/')
    }

    // The standard's "Tag open state" at the end of input.
    fn end_in_tag_open(&mut self) -> Result<(), TokenizerError>
        ensures { Emits S.means S.faults result self.old self.new
            (end_error_in self.old.exact_errors State.TagOpen ∷ Text (codes "<") ∷ End ∷ []) }
    {
        self.emit_end_error(State::TagOpen)?;
        self.end_after('<')
    }

    // The standard's "End tag open state" at the end of input.
    fn end_in_end_tag_open(&mut self) -> Result<(), TokenizerError>
        ensures { Emits S.means S.faults result self.old self.new
            (end_error_in self.old.exact_errors State.EndTagOpen
            ∷ Text (codes "<") ∷ Text (codes "/") ∷ End ∷ []) }
    {
        self.emit_end_error(State::EndTagOpen)?;
        self.end_after_solidus()
    }

    // Ends in raw text: in escaped script data that is an error.
    fn end_raw_text(&mut self, kind: RawKind) -> Result<(), TokenizerError>
        ensures { Emits S.means S.faults result self.old self.new
            (raw_end_error self.old.exact_errors (raw_of kind) ++ End ∷ []) }
    {
        match kind {
            RawKind::ScriptDataEscaped(_) => self.end_unexpected(State::RawData(kind)),
            _ => self.emit(Token::EOFToken),
        }
    }

    // Ends after a `<` of raw text.
    fn end_after_less_than(&mut self, kind: RawKind) -> Result<(), TokenizerError>
        ensures { Emits S.means S.faults result self.old self.new
            (told_after_less_than kind ++ (raw_end_error self.old.exact_errors (raw_of kind) ++ End ∷ [])) }
    {
        self.emit_after_less_than(kind)?;
        self.end_raw_text(kind)
    }

    // Ends after `</` and letters of raw text, which are text.
    fn end_after_end_name(&mut self, kind: RawKind, letters: &str) -> Result<(), TokenizerError>
        ensures { Emits S.means S.faults result self.old self.new
            (texts (less_than ∷ solidus ∷ chars letters.now) ++
            (raw_end_error self.old.exact_errors (raw_of kind) ++ End ∷ [])) }
    {
        self.emit_end_name(letters)?;
        self.end_raw_text(kind)
    }

    // Ends after a comment with that text.
    fn end_after_comment(&mut self, text: &str) -> Result<(), TokenizerError>
        ensures { Emits S.means S.faults result self.old self.new
            (Comment text.now ∷ End ∷ []) }
    {
        self.emit_comment_text(text)?;
        self.emit(Token::EOFToken)
    }

    // Sends a comment with that text.
    fn emit_comment_text(&mut self, text: &str) -> Result<(), TokenizerError>
        ensures { Emits S.means S.faults result self.old self.new
            (Comment text.now ∷ []) }
    {
        self.emit_comment(String::from_str(self.alloc, text)?)
    }

    // Ends in a comment, which is sent without the dashes at its end.
    fn end_comment_text(&mut self, text: &str) -> Result<(), TokenizerError>
        ensures { Emits S.means S.faults result self.old self.new
            (end_error_in self.old.exact_errors (comment_state State.CommentEnd text.now)
            ∷ Comment (comment_content text.now) ∷ End ∷ []) }
    {
        self.emit_end_error(state_in_comment(State::CommentEnd, text))?;
        self.end_after_comment(&text[..content_len(text)])
    }

    // Ends after a DOCTYPE, with quirks or without.
    fn end_after_doctype(
        &mut self,
        doctype: &Doctype<A>,
        force_quirks: bool,
    ) -> Result<(), TokenizerError>
        ensures { Emits S.means S.faults result self.old self.new
            (Told.Doctype (record (doctype_of doctype.now) { force_quirks = force_quirks }) ∷ End ∷ []) }
    {
        let mut doctype = doctype.try_clone()?;
        doctype.force_quirks = force_quirks;
        self.emit(Token::DoctypeToken(doctype))?;
        self.emit(Token::EOFToken)
    }

    // Ends in a state of DOCTYPEs that doesn't expect it.
    fn end_in_doctype(&mut self, state: State, doctype: &Doctype<A>) -> Result<(), TokenizerError>
        ensures { Emits S.means S.faults result self.old self.new
            (end_error_in self.old.exact_errors state ∷ Told.Doctype (with_quirks (doctype_of doctype.now)) ∷ End
            ∷ []) }
    {
        self.emit_end_error(state)?;
        self.end_after_doctype(doctype, true)
    }

    /// The end of input in each state. A tag without its end is not sent.
    pub fn emit_end_of_input(&mut self, at: &Opened<A>) -> Result<(), TokenizerError>
        requires decided { is_undecided_open (opened_of at.now) ≡ false }
        ensures { Emits S.means S.faults result self.old self.new
            (told_at_end_of self.old.exact_errors (opened_of at.now)) }
    {
        match at.state {
            State::Data | State::Plaintext => self.emit(Token::EOFToken),
            State::RawData(kind) => self.end_raw_text(kind),
            State::RawLessThanSign(kind) => self.end_after_less_than(kind),
            State::RawEndTagOpen(kind) => self.end_after_end_name(kind, ""),
            State::RawEndTagName(kind) => self.end_after_end_name(kind, &at.letters),
            State::ScriptDataEscapedDash(kind) => {
                self.end_unexpected(State::ScriptDataEscapedDash(kind))
            }
            State::ScriptDataEscapedDashDash(kind) => {
                self.end_unexpected(State::ScriptDataEscapedDashDash(kind))
            }
            State::ScriptDataEscapeStart(ScriptEscapeKind::Escaped)
            | State::ScriptDataEscapeStartDash => self.emit(Token::EOFToken),
            State::BogusComment => self.end_after_comment(&at.comment),
            State::ProcessingInstruction => self.end_in_instruction(&at.comment),
            State::CdataSection => self.end_in_cdata(&at.comment),
            State::MarkupDeclarationOpen => unreachable!(),
            State::ScriptDataEscapeStart(ScriptEscapeKind::DoubleEscaped)
            | State::ScriptDataDoubleEscapeEnd => self.end_unexpected(DOUBLE_ESCAPED),
            State::TagOpen => self.end_in_tag_open(),
            State::EndTagOpen => self.end_in_end_tag_open(),
            State::BeforeAttributeValue => self.end_unexpected(State::AttributeValue(Unquoted)),
            State::BogusDoctype => self.end_after_doctype(&at.doctype, at.doctype.force_quirks),
            state if is_comment_state(state) => self.end_comment_text(&at.comment),
            state if is_doctype_state(state) => self.end_in_doctype(state, &at.doctype),
            state => self.end_unexpected(state),
        }
    }
}
