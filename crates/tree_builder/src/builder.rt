//! What a builder keeps, and its smallest steps.
ghost use Rattle.std.specs.Prelude.{◌≡◌, length, Some, None, false, true, [], ◌∷◌, option_map, OnOk};
ghost use Rattle.tree_construction.specs.Formatting.{cleared_to_marker, with_marker};
ghost use Rattle.tree_construction.specs.Page.{current_passes, has_in_scope, has_open, popped};
ghost use Rattle.tree_construction.specs.Parser.{acknowledges, asked, has_template, in_mode, kind_at_top, mistaken, not_frameset_ok, on_page, pop, unexpected};
ghost use Rattle.tree_builder.specs.Built.{on_parser, request_of, unfostered};
ghost use Rattle.tree_lists.specs.Opened.{node_in};
ghost use Rattle.tree_lists.specs.Wanted.{ends, is_wanted};

use crate::options::{FragmentContext, TreeBuilderOpts};
use crate::request::Request;
use html5ever_interface::states::RawKind;
use std::alloc::Allocator;
use std::marker::Model;
use tree_construction::kinds::Kind;
use tree_construction::mistakes::Mistake;
use tree_construction::modes::{Mode, QuirksMode};
use tree_lists::formatting::{FormatEntry, FormattingList};
use tree_lists::opened::OpenElements;
use tree_lists::stack::Stack;
use tree_lists::wanted::{KindSet, Scope, Wanted};
use tree_sink::attributes::TagAttributes;
use tree_sink::editor::Editor;
use tree_sink::error::TreeBuilderError;
use tree_sink::sink::TreeSink;

/// Builds a document in a sink. Contracts see a parser of the definition.
#[derive(Drop)]
pub struct Builder<S: TreeSink<T> + Drop, T: TagAttributes, A: Allocator> {
    pub(crate) alloc: A,
    pub(crate) opts: TreeBuilderOpts,
    pub(crate) context: Option<FragmentContext>,
    pub(crate) editor: Editor<S, T>,
    pub(crate) opened: OpenElements<S::Handle, A>,
    pub(crate) formatting: FormattingList<S::Handle, T, A>,
    pub(crate) mode: Mode,
    pub(crate) original_mode: Mode,
    pub(crate) template_modes: Stack<Mode, A>,
    pub(crate) head: Option<S::Handle>,
    pub(crate) form: Option<S::Handle>,
    pub(crate) frameset_ok: bool,
    pub(crate) fostering: bool,
    pub(crate) pending: String<A>,
    pub(crate) ignores_newline: bool,
    pub(crate) quirks_mode: QuirksMode,
    pub(crate) stopped: bool,
    pub(crate) request: Request<S::Handle, A>,
    pub(crate) acknowledged: bool,
}

impl<S: TreeSink<T> + Drop, T: TagAttributes, A: Allocator> Model for Builder<S, T, A> {
    ghost use Rattle.std.specs.Prelude.{string_bytes};
    ghost use Rattle.tree_builder.specs.Built.{Built, options_of, request_of};
    ghost use Rattle.tree_lists.specs.Opened.{node_in};

    ghost Value = { Built S };

    ghost view = { λ b. record {
      parser = record {
        options = options_of b.opts b.context;
        page = record { next = b.editor.next; opened = b.opened; edits = b.editor.edits };
        formatting = b.formatting;
        mode = b.mode;
        original_mode = b.original_mode;
        template_modes = b.template_modes;
        head = node_in S.Handle.node b.head;
        form = node_in S.Handle.node b.form;
        frameset_ok = b.frameset_ok;
        fostering = b.fostering;
        pending = string_bytes b.pending;
        ignores_newline = b.ignores_newline;
        quirks_mode = b.quirks_mode;
        stopped = b.stopped;
        request = request_of S.Handle.node b.request;
        acknowledged = b.acknowledged;
      };
      telling = record { start = b.editor.start; faults = b.editor.faults; failed = b.editor.failed };
    } };
}

impl<S: TreeSink<T> + Drop, T: TagAttributes, A: Allocator> Builder<S, T, A> {
    // ---- what it keeps

    /// The insertion mode.
    pub fn mode(&self) -> Mode
        ensures { result ≡ self.now.parser.mode }
    {
        self.mode
    }

    /// Sets the insertion mode.
    pub fn set_mode(&mut self, mode: Mode)
        ensures { self.new ≡ on_parser (in_mode mode) self.old }
    {
        self.mode = mode;
    }

    /// Sets "the frameset-ok flag" to "not ok".
    pub fn set_frameset_not_ok(&mut self)
        ensures { self.new ≡ on_parser not_frameset_ok self.old }
    {
        self.frameset_ok = false;
    }

    /// "Disable foster parenting".
    pub fn disable_fostering(&mut self)
        ensures { self.new ≡ on_parser unfostered self.old }
    {
        self.fostering = false;
    }

    /// "Acknowledge the token's self-closing flag".
    pub fn acknowledge(&mut self)
        ensures { self.new ≡ on_parser acknowledges self.old }
    {
        self.acknowledged = true;
    }

    /// Asks the tokenizer for something.
    pub fn ask(&mut self, request: Request<S::Handle, A>)
        ensures { self.new ≡ on_parser (asked (request_of S.Handle.node request)) self.old }
    {
        self.request = request;
    }

    /// What the last token asked the tokenizer for.
    pub fn request(&self) -> &Request<S::Handle, A>
        ensures { request_of S.Handle.node result.now ≡ self.now.parser.request }
    {
        &self.request
    }

    // ---- parse errors

    /// "Parse error".
    pub fn mistaken(&mut self, mistake: Mistake) -> Result<(), TreeBuilderError>
        ensures { OnOk result (self.new ≡ on_parser (mistaken mistake) self.old) }
    {
        self.editor.mistake(mistake)?;
        Ok(())
    }

    /// A token that the insertion mode does not expect.
    pub fn unexpected(&mut self) -> Result<(), TreeBuilderError>
        ensures { OnOk result (self.new ≡ on_parser unexpected self.old) }
    {
        self.mistaken(Mistake::UnexpectedToken)
    }

    // ---- the stack of open elements

    /// How many elements are open.
    pub fn open_len(&self) -> usize
        ensures { result ≡ length self.now.parser.page.opened }
    {
        self.opened.len()
    }

    /// Whether the current node is what is searched for.
    pub fn current_is(&self, wanted: &Wanted<'_, S::Handle, A>) -> bool
        ensures { result ≡ current_passes (is_wanted S.Handle.node wanted.now) self.now.parser.page.opened }
    {
        self.opened.current_is(wanted)
    }

    /// "Has an element in the specific scope".
    pub fn has_in_scope(&self, scope: Scope, wanted: &Wanted<'_, S::Handle, A>) -> bool
        ensures { result ≡ has_in_scope (ends scope) (is_wanted S.Handle.node wanted.now) self.now.parser.page.opened }
    {
        self.opened.has_in_scope(scope, wanted)
    }

    /// Whether such an element is open.
    pub fn has_open(&self, wanted: &Wanted<'_, S::Handle, A>) -> bool
        ensures { result ≡ has_open (is_wanted S.Handle.node wanted.now) self.now.parser.page.opened }
    {
        self.opened.has(wanted)
    }

    /// Whether a template is open.
    pub fn has_template(&self) -> bool
        ensures { result ≡ has_template self.now.parser }
    {
        self.opened.has(&Wanted::Of(KindSet::Template))
    }

    /// Pops the current node.
    pub fn pop(&mut self) -> Result<(), TreeBuilderError>
        ensures { OnOk result (self.new ≡ on_parser pop self.old) }
    {
        if let Some(element) = self.opened.pop() {
            self.editor.pop(element.handle)?;
        }
        Ok(())
    }

    // ---- the list of active formatting elements

    /// "Insert a marker at the end of the list of active formatting elements".
    pub fn push_marker(&mut self) -> Result<(), TreeBuilderError>
        ensures { OnOk result (self.new ≡ on_parser with_marker self.old) }
    {
        self.formatting.push(FormatEntry::Mark)?;
        Ok(())
    }

    /// "Clear the list of active formatting elements up to the last marker".
    pub fn clear_to_marker(&mut self)
        ensures { self.new ≡ on_parser cleared_to_marker self.old }
    {
        self.formatting.clear_to_marker();
    }
}
