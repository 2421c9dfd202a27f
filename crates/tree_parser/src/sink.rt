//! The tree builder: a sink of a tokenizer.
ghost use Rattle.std.specs.Prelude.{◌≡◌, ◌↔◌, ℕ, ◌+◌, false, None, string_bytes, IfOk, OnErr, OnOk};
ghost use Rattle.html5ever_interface.specs.Token.{reply_of};
ghost use Rattle.tree_construction.specs.Text.{replied_by};
ghost use Rattle.tree_sink.specs.Edited.{IsTold};
ghost use Rattle.tree_parser.specs.Building.{after_message, sent_by};

use crate::attributes::Attributes;
use crate::handle::ScriptHandle;
use crate::taking::{Sent, take};
use ghost_counts::{Count, Follows, Noted, note};
use html5ever_interface::interface::sink::TokenSink;
use html5ever_interface::interface::token::{SinkFault, TextFault, Token, TokenSinkResult};
use std::alloc::Global;
use std::marker::{Model, PhantomData};
use tree_builder::builder::Builder;
use tree_sink::error::TreeBuilderError;
use tree_sink::sink::TreeSink;

/// Stands for where a builder is.
pub struct Standing<S> {
    of: PhantomData<S>,
}

impl<S> Model for Standing<S> {
    ghost use Rattle.tree_parser.specs.Building.{Building, nowhere};

    ghost Value = { Building S };

    ghost view = { λ _. nowhere };
}

impl<S: TreeSink<Attributes> + Drop> Follows<Builder<S, Attributes, Global>, ()> for Standing<S> {
    ghost use Rattle.tree_parser.specs.Building.{standing_of};

    ghost follows = { λ builder _. standing_of builder };
}

/// Builds a tree of the tokens that it receives: it tells a sink of the tree how. It goes into a tokenizer as its sink, and
/// replies how to read on. If the sink of the tree faults, or memory runs out, the token is a fault, and so is each later one.
#[derive(Drop)]
pub struct TreeBuilder<S: TreeSink<Attributes> + Drop> {
    alloc: Global,
    builder: Builder<S, Attributes, Global>,
    standing: Noted<Standing<S>>,
    foreign: bool,
    error: Option<TreeBuilderError>,
    faults: Count,
}

impl<S: TreeSink<Attributes> + Drop> Model for TreeBuilder<S> {
    ghost use Rattle.tree_parser.specs.Building.{InStep, TreeBuilding};

    ghost Value = { TreeBuilding S };

    ghost view = { λ b. record { state = b.standing.value; faults = b.faults.total } };

    ghost invariant = { λ b. InStep b.builder b.standing.value b.foreign b.error b.faults.total };
}

impl<S: TreeSink<Attributes> + Drop> TreeBuilder<S> {
    /// Over a builder that did not fail yet, such as one at the start of a document or a fragment.
    pub fn new(alloc: Global, builder: Builder<S, Attributes, Global>) -> TreeBuilder<S>
        requires { builder.telling.failed ≡ false }
        ensures parser { result.state.parser ≡ builder.parser }
        ensures first { result.state.first ≡ builder.telling.start }
        ensures faults { result.faults ≡ 0 }
    {
        let standing = note(&builder, &());
        let foreign = builder.is_foreign();
        TreeBuilder {
            alloc,
            builder,
            standing,
            foreign,
            error: None,
            faults: Count::new(),
        }
    }

    /// The sink of the tree. If no token was a fault, it stands where the edits of the tokens lead from where it stood at
    /// the start.
    pub fn sink(&self) -> &S
        ensures told { self.now.faults ≡ 0 → IsTold S.means self.now.state.first self.now.state.parser.page.edits result.now }
    {
        self.builder.sink()
    }

    /// The sink of the tree, at the end. The same is known of it.
    pub fn into_sink(self) -> S
        ensures told { self.faults ≡ 0 → IsTold S.means self.state.first self.state.parser.page.edits result }
    {
        self.builder.into_sink()
    }

    /// Why a token was a fault, if one was.
    pub fn error(&self) -> Option<TreeBuilderError>
        ensures none { (result ≡ None) ↔ (self.now.faults ≡ 0) }
    {
        self.error
    }

    // Takes what a tokenizer sends.
    fn take(
        &mut self,
        sent: Sent<'_>,
    ) -> Result<TokenSinkResult<ScriptHandle<S::Handle>, String>, SinkFault>
        ensures steps { OnOk result ((line : ℕ) → self.new.state ≡ after_message self.old.state (sent_by sent.entry) line) }
        ensures replies { IfOk result (λ answer. (line : ℕ) → reply_of string_bytes answer ≡ replied_by self.old.state.parser (sent_by sent.entry) line) }
        ensures fault { OnErr result (self.new.state ≡ self.old.state) }
        ensures no_fault { OnOk result (self.new.faults ≡ self.old.faults) }
        ensures one_fault { OnErr result (self.new.faults ≡ self.old.faults + 1) }
    {
        if self.error.is_some() {
            self.faults.add(1);
            return Err(SinkFault);
        }
        match take(&mut self.builder, self.alloc, sent) {
            Ok(answer) => {
                self.standing = note(&self.builder, &());
                self.foreign = self.builder.is_foreign();
                Ok(answer)
            }
            Err(error) => {
                self.error = Some(error);
                self.faults.add(1);
                Err(SinkFault)
            }
        }
    }
}

impl<S: TreeSink<Attributes> + Drop> TokenSink<Token> for TreeBuilder<S> {
    ghost use Rattle.tree_parser.specs.Building.{Building, building_means};
    ghost use Rattle.tree_parser.specs.BuildingLaws.{any_line, empty_text, keeps_on, texts_join};

    type Handle = ScriptHandle<S::Handle>;

    ghost State = { Building S };

    ghost means = { building_means };

    ghost faults = { λ b. b.faults };

    ghost joins = { texts_join };

    ghost empty = { empty_text };

    ghost any_line = { any_line };

    ghost keeps_on = { keeps_on };

    fn process_token(
        &mut self,
        token: Token,
        _line_number: u64,
    ) -> Result<TokenSinkResult<ScriptHandle<S::Handle>, String>, SinkFault> {
        self.take(Sent::Token(token))
    }

    // Takes the text where it lies.
    fn process_text(
        &mut self,
        _alloc: Global,
        text: &str,
        _line_number: u64,
    ) -> Result<(), TextFault> {
        self.take(Sent::Text(text))?;
        Ok(())
    }

    fn end(&mut self) -> Result<(), SinkFault> {
        Ok(())
    }

    fn adjusted_current_node_present_but_not_in_html_namespace(&self) -> bool {
        self.foreign
    }
}
