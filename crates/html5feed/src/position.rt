//! Where a tokenizer stands in its stream.
#![tactic(auto, unfolding(html5partial::specs::CharRef::with_reference))]

ghost use Rattle.std.specs.Prelude.{◌≡◌, ◌^◌, ◌<◌, ◌+◌, true, false, Some, drop, IfErr, OnOk, option_map, string_bytes};
ghost use Rattle.html5ever_interface.specs.Options.{options_of};
ghost use Rattle.html5ever_interface.specs.Sink.{on_line};
ghost use Rattle.html5reading.specs.EndOfInput.{late_at_end_of, open_at_end_of, tokens_at_end};
ghost use Rattle.html5reading.specs.Slice.{tokens_of_late};
ghost use Rattle.html5reading.specs.Start.{start_of, initial_name, nothing_open, is_undecided_open};
ghost use Rattle.html5partial.specs.CharRef.{HasStand, begun_reference};
ghost use Rattle.html5reading.specs.Start.Mode.{Plain};
ghost use Rattle.html5reading.specs.Start.Open.{Between};
ghost use Rattle.html5partial.specs.CurrentTag.{is_between, opened_of, last_name_of};
ghost use Rattle.std.specs.Str.{chars};
ghost use Rattle.html5states.specs.Telling.{Emits, Tells, IsRefusal, faults_of};
ghost use Rattle.html5feed.specs.Beginning.{is_after_less_than};
ghost use Rattle.html5feed.specs.Starting.{CanStart, in_state};
ghost use Rattle.html5feed.specs.Undecided.{rules_with};

mod runs;

use crate::input::Input;
use crate::rules::Rules;
use crate::undecided::decide_keyword;
use html5ever_interface::interface::sink::TokenSink;
use html5ever_interface::interface::token::{Doctype, TagKind, Token};
use html5ever_interface::options::TokenizerOpts;
use html5ever_interface::states::State;
use html5partial::char_ref::CharRef;
use html5partial::current_tag::CurrentTag;
use html5partial::error::TokenizerError;
use html5partial::keyword::holds_keyword;
use html5partial::opened::Opened;
use html5states::teller::Teller;
use markup5ever::data::NamedReferences;
use std::alloc::{Allocator, Global};
use std::marker::Model;

/// Where a tokenizer stands in its stream: how characters come in, and what is open.
pub struct Position<A: Allocator = Global> {
    pub(crate) opened: Opened<A>,
    // Whether a reference is open too, of which `held` has what was read.
    pub(crate) in_reference: bool,
    pub(crate) held: CharRef<A>,
    pub(crate) input: Input,
}

// By hand, as that of `Opened`.
impl<A: Allocator> Drop for Position<A> {
    fn drop(self) {
        let Position {
            opened: _,
            in_reference: _,
            held: _,
            input: _,
        } = self;
    }
}

impl<A: Allocator> Model for Position<A> {
    ghost use Rattle.html5reading.specs.Start.{Start};
    ghost use Rattle.std.specs.Prelude.{◌≡◌, true};
    ghost use Rattle.html5partial.specs.CharRef.{HasStand, with_reference};
    ghost use Rattle.html5partial.specs.CurrentTag.{opened_of, last_name_of};

    ghost Value = { Start };

    ghost view = { λ p. record {
      opened = with_reference p.in_reference p.held (opened_of p.opened);
      last_start_tag = last_name_of p.opened;
      input = p.input;
    } };

    ghost invariant = { λ p. p.in_reference ≡ true → HasStand (opened_of p.opened) };
}

impl<A: Allocator + Copy> Position<A> {
    /// The start of a stream.
    pub fn new(alloc: A, opts: TokenizerOpts<A>) -> Position<A>
        requires { CanStart opts.initial_state }
        ensures start { result ≡ start_of (options_of opts) }
    {
        let opened = Opened {
            state: opts.initial_state.unwrap_or(State::Data),
            tag: CurrentTag::new(alloc, TagKind::StartTag),
            comment: String::new(alloc),
            doctype: Doctype::default(),
            letters: String::new(alloc),
            last_start_tag: name_or_empty(alloc, opts.last_start_tag_name),
        };
        Position::standing(alloc, opened, Input::new(opts.discard_bom))
    }

    // No reference is open.
    fn standing(alloc: A, opened: Opened<A>, input: Input) -> Position<A>
        ensures opened { result.opened ≡ opened_of opened }
        ensures last { result.last_start_tag ≡ last_name_of opened }
        ensures input { result.input ≡ input }
    {
        Position {
            opened,
            in_reference: false,
            held: CharRef::new(alloc),
            input,
        }
    }

    /// The line that was reached.
    pub fn line(&self) -> u64
        ensures line { result ≡ self.now.input.line }
        ensures fits { self.now.input.line < 2 ^ 64 }
    {
        self.input.line()
    }

    /// Sends what the end of input tells of the open item.
    pub fn emit_end_of_input<S: TokenSink<Token<A>>>(
        &mut self,
        alloc: A,
        sink: &mut S,
        rules: &Rules<'_, A>,
    ) -> Result<(), TokenizerError>
        ensures tells { Tells S.means.step S.means.faulted result (S.means.state sink.old)
            (on_line self.old.input.line (tokens_at_end rules.now self.old.opened)) (S.means.state sink.new) }
        ensures faults { S.faults sink.new ≡ S.faults sink.old + faults_of result }
        ensures refusal { IfErr result IsRefusal }
        ensures fits { self.old.input.line < 2 ^ 64 }
    {
        let line = self.input.line();
        let mut teller = Teller {
            sink,
            alloc,
            exact_errors: rules.exact_errors,
            line,
        };
        self.decide_at_end(&mut teller, rules.references)?;
        teller.emit_end_of_input(&self.opened)
    }

    // Sends what the end of input decides of a reference or a keyword.
    fn decide_at_end<S: TokenSink<Token<A>>>(
        &mut self,
        teller: &mut Teller<'_, S, A>,
        references: &NamedReferences<A>,
    ) -> Result<(), TokenizerError>
        ensures emits { Emits S.means S.faults result teller.old teller.new
            (tokens_of_late (late_at_end_of (rules_with teller.old references.now) self.old.opened)) }
        ensures opened { OnOk result
            (self.new.opened ≡ open_at_end_of (rules_with teller.old references.now) self.old.opened) }
        ensures decided { OnOk result (is_undecided_open self.new.opened ≡ false) }
    {
        if self.in_reference {
            teller.finish_reference(references, &mut self.opened, &self.held, None)?;
            self.in_reference = false;
            return Ok(());
        }
        if !holds_keyword(&self.opened) {
            return Ok(());
        }
        decide_keyword(teller, &mut self.opened)
    }

    /// Whether a reference or a keyword is not decided.
    #[inline(always)]
    pub(crate) fn is_undecided(&self) -> bool
        ensures { result ≡ is_undecided_open self.now.opened }
    {
        self.in_reference || holds_keyword(&self.opened)
    }

    /// Whether nothing is open.
    #[inline(always)]
    pub fn nothing_open(&self) -> bool
        ensures { result ≡ nothing_open self.now.opened }
    {
        !self.in_reference && is_between(self.opened.state, &self.opened.comment)
    }

    /// Whether the last character is a `<` that may begin a tag or other markup.
    pub fn is_after_less_than(&self) -> bool
        ensures { result ≡ is_after_less_than self.now.opened }
    {
        !self.in_reference && is_after_less_than(&self.opened)
    }

    /// Reads plain text from here on.
    pub fn set_plaintext(&mut self)
        ensures opened { self.new.opened ≡ Between Plain }
        ensures last { self.new.last_start_tag ≡ self.old.last_start_tag }
        ensures input { self.new.input ≡ self.old.input }
    {
        self.opened.state = State::Plaintext;
        self.in_reference = false;
    }

    /// Reads in the state from here on. Raw text is read up to the end tag of the last start tag.
    pub fn set_state(&mut self, state: State)
        requires { CanStart (Some state) }
        ensures { self.new ≡ in_state self.old state }
    {
        self.opened.state = state;
        self.opened.comment.clear();
        self.in_reference = false;
    }

    /// Begins a reference where the state is.
    pub(crate) fn begin_reference(&mut self)
        requires decided { is_undecided_open self.old.opened ≡ false }
        requires can_stand { HasStand self.old.opened }
        ensures opened { self.new.opened ≡ begun_reference self.old.opened }
        ensures last { self.new.last_start_tag ≡ self.old.last_start_tag }
        ensures input { self.new.input ≡ self.old.input }
    {
        self.in_reference = true;
        self.held.clear();
    }
}

// The name that the options give the last start tag, and else the empty one.
fn name_or_empty<A: Allocator>(alloc: A, name: Option<String<A>>) -> String<A>
    ensures { string_bytes result ≡ initial_name (option_map string_bytes name) }
{
    match name {
        Some(name) => name,
        None => String::new(alloc),
    }
}

// Whether nothing is open in the state, when no reference is open and this is held of a CDATA section.
#[inline(always)]
fn is_between(state: State, held: &str) -> bool
    ensures { result ≡ is_between state (chars held.now) }
{
    match state {
        State::Data | State::Plaintext | State::RawData(_) => true,
        State::ScriptDataEscapedDash(_) | State::ScriptDataEscapedDashDash(_) => true,
        State::CdataSection => held.is_empty(),
        _ => false,
    }
}

// Whether the state is that after a `<` that may begin markup, when no reference is open.
fn is_after_less_than<A: Allocator>(opened: &Opened<A>) -> bool
    ensures { result ≡ is_after_less_than (opened_of opened.now) }
{
    matches!(opened.state, State::TagOpen | State::RawLessThanSign(_))
}
