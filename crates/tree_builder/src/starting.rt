//! The start of a document, and what a builder answers for.
ghost use Rattle.std.specs.Prelude.{◌≡◌, None, Some, [], false};
ghost use Rattle.tree_construction.specs.Construction.{empty_parser, start};
ghost use Rattle.tree_sink.specs.Edited.{IsTold};
ghost use Rattle.tree_builder.specs.Built.{options_of};

use crate::builder::Builder;
use crate::options::{FragmentContext, TreeBuilderOpts};
use crate::request::Request;
use std::alloc::Allocator;
use tree_construction::modes::{Mode, QuirksMode};
use tree_lists::formatting::FormattingList;
use tree_lists::opened::OpenElements;
use tree_lists::stack::Stack;
use tree_sink::attributes::TagAttributes;
use tree_sink::editor::Editor;
use tree_sink::sink::TreeSink;

impl<S: TreeSink<T> + Drop, T: TagAttributes, A: Allocator + Copy> Builder<S, T, A> {
    // A builder that was sent nothing yet.
    pub(crate) fn empty(
        alloc: A,
        sink: S,
        opts: TreeBuilderOpts,
        context: Option<FragmentContext>,
    ) -> Builder<S, T, A>
        ensures parser { S.means.next (S.means.state sink) ≡ 3 → result.parser ≡ empty_parser (options_of opts context) }
        ensures modes { result.parser.template_modes ≡ [] }
        ensures telling { result.telling ≡ record { start = Some sink; faults = S.faults sink; failed = false } }
    {
        Builder {
            alloc,
            opts,
            context,
            editor: Editor::new(sink),
            opened: OpenElements::new(alloc),
            formatting: FormattingList::new(alloc),
            mode: Mode::Initial,
            original_mode: Mode::InBody,
            template_modes: Stack::new(alloc),
            head: None,
            form: None,
            frameset_ok: true,
            fostering: false,
            pending: String::new(alloc),
            ignores_newline: false,
            quirks_mode: QuirksMode::NoQuirks,
            stopped: false,
            request: Request::GoOn,
            acknowledged: false,
        }
    }

    /// Begins a document in a sink that has none yet: its next node is the third.
    #[tactic(auto, unfolding(tree_construction::specs::Construction::start))]
    pub fn new(alloc: A, sink: S, opts: TreeBuilderOpts) -> Builder<S, T, A>
        ensures parser { S.means.next (S.means.state sink) ≡ 3 → result.parser ≡ start (options_of opts None) }
        ensures telling { result.telling ≡ record { start = Some sink; faults = S.faults sink; failed = false } }
    {
        Builder::empty(alloc, sink, opts, None)
    }

    /// The sink. Unless it faulted, it stands where the edits of the tokens lead from where it stood at the start.
    pub fn sink(&self) -> &S
        ensures told { self.now.telling.failed ≡ false → IsTold S.means self.now.telling.start self.now.parser.page.edits result.now }
    {
        self.editor.sink()
    }

    /// The sink, at the end. The same is known of it.
    pub fn into_sink(self) -> S
        ensures told { self.telling.failed ≡ false → IsTold S.means self.telling.start self.parser.page.edits result }
    {
        self.editor.into_sink()
    }
}
