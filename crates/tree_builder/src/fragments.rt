//! "Parsing HTML fragments".
ghost use Rattle.std.specs.Prelude.{◌≡◌, Some, [], false, OnOk};
ghost use Rattle.tree_construction.specs.Construction.{fragment_form, fragment_modes, start, start_fragment};
ghost use Rattle.tree_builder.specs.Built.{context_of, on_parser, options_of};
ghost use Rattle.tree_lists.specs.Opened.{node_in};

use crate::builder::Builder;
use crate::options::{FragmentContext, TreeBuilderOpts};
use std::alloc::Allocator;
use tree_construction::kinds::Kind;
use tree_construction::modes::Mode;
use tree_sink::attributes::TagAttributes;
use tree_sink::error::TreeBuilderError;
use tree_sink::sink::TreeSink;

impl<S: TreeSink<T> + Drop, T: TagAttributes, A: Allocator + Copy> Builder<S, T, A> {
    // "If the context element is a template element, push "in template" onto the stack of template insertion modes".
    fn begin_template_modes(&mut self, kind: Kind) -> Result<(), TreeBuilderError>
        requires { self.old.parser.template_modes ≡ [] }
        ensures { OnOk result (self.new ≡ on_parser (λ p. record p { template_modes = fragment_modes kind }) self.old) }
    {
        if kind.is_template() {
            self.template_modes.push(Mode::InTemplate)?;
        }
        Ok(())
    }

    // The mode of the context element's document, and the form around that element.
    fn set_surroundings(&mut self, context: FragmentContext, form: Option<S::Handle>)
        requires { node_in S.Handle.node form ≡ fragment_form context.in_form }
        ensures { self.new ≡ on_parser (λ p. record p { quirks_mode = context.quirks_mode; form = fragment_form context.in_form }) self.old }
    {
        self.quirks_mode = context.quirks_mode;
        self.form = form;
    }

    // Begins with an `html` element as root, in the mode of the context element.
    fn begin_fragment(
        &mut self,
        context: FragmentContext,
        form: Option<S::Handle>,
    ) -> Result<(), TreeBuilderError>
        requires modes { self.old.parser.template_modes ≡ [] }
        requires form { node_in S.Handle.node form ≡ fragment_form context.in_form }
        ensures { OnOk result (self.new ≡ on_parser (start_fragment (context_of context)) self.old) }
    {
        self.push_bare_root()?;
        self.begin_template_modes(context.kind)?;
        self.reset_mode();
        self.set_surroundings(context, form);
        Ok(())
    }

    /// Begins a fragment in a sink that has no document yet: its next node is the third. If the context element is in a form, `form`
    /// is that form's handle, and its number is 2.
    #[tactic(auto, unfolding(tree_construction::specs::Construction::start))]
    pub fn new_for_fragment(
        alloc: A,
        sink: S,
        opts: TreeBuilderOpts,
        context: FragmentContext,
        form: Option<S::Handle>,
    ) -> (Builder<S, T, A>, Result<(), TreeBuilderError>)
        requires { node_in S.Handle.node form ≡ fragment_form context.in_form }
        ensures parser { S.means.next (S.means.state sink) ≡ 3
            → OnOk result.1 (result.0.parser ≡ start (options_of opts (Some context))) }
        ensures telling { OnOk result.1 (result.0.telling ≡ record { start = Some sink; faults = S.faults sink; failed = false }) }
    {
        let mut builder = Builder::empty(alloc, sink, opts, Some(context));
        let begun = builder.begin_fragment(context, form);
        (builder, begun)
    }
}
