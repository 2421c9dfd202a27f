//! Documents and fragments that are parsed whole.
ghost use Rattle.std.specs.Prelude.{◌≡◌, ℕ, List, [], false, None, Some, OnOk, string_bytes};
ghost use Rattle.std.specs.Str.{chars};
ghost use Rattle.html5feed.specs.Starting.{CanStart};
ghost use Rattle.html5reading.specs.Start.{initial_mode, start_of};
ghost use Rattle.tree_construction.specs.Construction.{request_of_kind, start};
ghost use Rattle.tree_construction.specs.Parser.{Options};
ghost use Rattle.tree_construction.specs.Text.{mode_of_request, parser_of_text, text_start};
ghost use Rattle.tree_sink.specs.Edited.{IsTold};
ghost use Rattle.tree_builder.specs.Built.{options_of};
ghost use Rattle.tree_builder.specs.declared.options.TreeBuilderOpts.{TreeBuilderOpts};
ghost use Rattle.tree_documents.specs.Documents.{is_read_by, reading_from};

use html5ever::tokenizer::read_whole;
use html5ever_interface::options::TokenizerOpts;
use html5ever_interface::states::{RawKind, State};
use markup5ever::data::NamedReferences;
use std::alloc::Global;
use tree_builder::builder::Builder;
use tree_builder::options::{FragmentContext, TreeBuilderOpts};
use tree_construction::kinds::Kind;
use tree_parser::{Attributes, TreeBuilder};
use tree_sink::error::TreeBuilderError;
use tree_sink::sink::TreeSink;

// Parses a text by a builder that is at its start.
fn parse<S: TreeSink<Attributes> + Drop>(
    alloc: Global,
    builder: Builder<S, Attributes, Global>,
    initial_state: Option<State>,
    references: &NamedReferences,
    text: String,
) -> (S, Result<(), TreeBuilderError>)
    requires well { builder.telling.failed ≡ false }
    requires can { CanStart initial_state }
    ensures { OnOk result.1 ((options : Options) → builder.parser ≡ start options → start_of (reading_from initial_state) ≡ text_start options
        → IsTold S.means builder.telling.start (parser_of_text options (is_read_by references.now) (chars (string_bytes text))).page.edits result.0) }
{
    let reading = TokenizerOpts {
        exact_errors: false,
        discard_bom: false,
        initial_state,
        last_start_tag_name: None,
    };
    let builder = TreeBuilder::new(alloc, builder);
    let (builder, read) = read_whole(alloc, builder, reading, references, text);
    let error = builder.error().unwrap_or(TreeBuilderError::Memory);
    let sink = builder.into_sink();
    match read {
        Ok(()) => (sink, Ok(())),
        Err(_) => (sink, Err(error)),
    }
}

/// Parses a document by a builder at its start, as `Builder::new` gives one, and hands its sink back. The sink receives the
/// edits of the whole text's tree. The text is decoded already: a byte order mark at its front is a character.
pub fn parse_document<S: TreeSink<Attributes> + Drop>(
    alloc: Global,
    builder: Builder<S, Attributes, Global>,
    references: &NamedReferences,
    text: String,
) -> (S, Result<(), TreeBuilderError>)
    requires well { builder.telling.failed ≡ false }
    ensures builds { OnOk result.1 ((opts : TreeBuilderOpts) → builder.parser ≡ start (options_of opts None)
        → IsTold S.means builder.telling.start
        (parser_of_text (options_of opts None) (is_read_by references.now) (chars (string_bytes text))).page.edits result.0) }
{
    parse(alloc, builder, None, references, text)
}

// "Set the state of the HTML parser's tokenization stage", by the context element.
#[tactic(auto, unfolding(tree_construction::specs::Text::mode_of_request))]
fn initial_state(kind: Kind, scripting: bool) -> Option<State>
    ensures state { initial_mode result [] ≡ mode_of_request (request_of_kind scripting kind) }
    ensures can { CanStart result }
{
    match kind {
        Kind::Title | Kind::Textarea => Some(State::RawData(RawKind::Rcdata)),
        Kind::Style | Kind::Xmp | Kind::Iframe | Kind::Noembed | Kind::Noframes => {
            Some(State::RawData(RawKind::Rawtext))
        }
        Kind::Script => Some(State::RawData(RawKind::ScriptData)),
        Kind::Noscript if scripting => Some(State::RawData(RawKind::Rawtext)),
        Kind::Plaintext => Some(State::Plaintext),
        _ => None,
    }
}

/// Parses a fragment by a builder at its start, as `Builder::new_for_fragment` gives one by these options and this context
/// element, and hands its sink back. The sink receives the edits of the whole text's tree.
pub fn parse_fragment<S: TreeSink<Attributes> + Drop>(
    alloc: Global,
    builder: Builder<S, Attributes, Global>,
    opts: TreeBuilderOpts,
    context: FragmentContext,
    references: &NamedReferences,
    text: String,
) -> (S, Result<(), TreeBuilderError>)
    requires well { builder.telling.failed ≡ false }
    ensures builds { OnOk result.1 (builder.parser ≡ start (options_of opts (Some context))
        → IsTold S.means builder.telling.start
        (parser_of_text (options_of opts (Some context)) (is_read_by references.now) (chars (string_bytes text))).page.edits result.0) }
{
    let state = initial_state(context.kind, opts.scripting_enabled);
    parse(alloc, builder, state, references, text)
}
