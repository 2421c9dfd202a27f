//! "The adoption agency algorithm", and "any other end tag".
ghost use Rattle.std.specs.Prelude.{◌≡◌, IfOk, OnOk, option_map, if◌then◌else◌};
ghost use Rattle.tree_construction.specs.Adoption.{adoption_agency, any_other_end_tag, ended_by, furthest_block, is_unlisted, opened_inside, outer_loop, turn};
ghost use Rattle.tree_construction.specs.Formatting.{last_named, without_entry};
ghost use Rattle.tree_construction.specs.Page.{current_passes};
ghost use Rattle.tree_construction.specs.Parser.{Parser};
ghost use Rattle.tree_names.specs.ElementNames.{name_bytes};
ghost use Rattle.tree_builder.specs.Built.{on_parser};
ghost use Rattle.tree_lists.specs.Formatting.{listed_of};
ghost use Rattle.tree_lists.specs.Opened.{node_in};

use crate::builder::Builder;
use std::alloc::Allocator;
use tree_construction::mistakes::Mistake;
use tree_lists::formatting::Formatting;
use tree_lists::wanted::{Scope, Wanted};
use tree_names::name::ElementName;
use tree_sink::attributes::TagAttributes;
use tree_sink::error::TreeBuilderError;
use tree_sink::sink::TreeSink;

impl<S: TreeSink<T> + Drop, T: TagAttributes, A: Allocator + Copy> Builder<S, T, A> {
    // The element that "any other end tag" of a name ends.
    fn ended_by(&self, name: &ElementName<A>) -> Option<S::Handle>
        ensures { ended_by (name_bytes name.now) self.now.parser.page.opened ≡ node_in S.Handle.node result }
    {
        self.opened.ended_by(name)
    }

    /// "Any other end tag".
    pub fn any_other_end_tag(&mut self, name: &ElementName<A>) -> Result<(), TreeBuilderError>
        ensures { OnOk result (self.new ≡ on_parser (any_other_end_tag (name_bytes name.now)) self.old) }
    {
        let Some(handle) = self.ended_by(name) else {
            return self.unexpected();
        };
        let wanted = Wanted::Node(handle);
        self.generate_implied_end_tags_but(&Wanted::Named(name))?;
        self.expect_current(&wanted)?;
        self.pop_until(&wanted)
    }

    // The last element of a name in the list, after the last marker.
    fn last_listed(
        &self,
        name: &ElementName<A>,
    ) -> Result<Option<Formatting<S::Handle, T, A>>, TreeBuilderError>
        ensures { IfOk result (λ found. last_named (name_bytes name.now) self.now.parser.formatting
            ≡ option_map (listed_of S.Handle.node T.said) found) }
    {
        let Some(element) = self.formatting.last_named(name) else {
            return Ok(None);
        };
        Ok(Some(Formatting {
            handle: element.handle,
            kind: element.kind,
            name: element.name.try_clone()?,
            attributes: element.attributes.share()?,
        }))
    }

    // "Furthest block": how deep the outermost special element in a node stands.
    fn furthest_block(&self, handle: S::Handle) -> Option<usize>
        ensures { furthest_block (opened_inside (S.Handle.node handle) self.now.parser.page.opened) ≡ result }
    {
        self.opened.furthest_block(handle)
    }

    /// The node of the last element of a name in the list, after the last marker.
    pub fn last_listed_node(&self, name: &ElementName<A>) -> Option<S::Handle>
        ensures { option_map (λ e. e.node) (last_named (name_bytes name.now) self.now.parser.formatting) ≡ node_in S.Handle.node result }
    {
        let element = self.formatting.last_named(name)?;
        Some(element.handle)
    }

    /// Takes the entry of a node out of the list.
    pub fn unlist(&mut self, handle: S::Handle)
        ensures { self.new ≡ on_parser (λ p. record p { formatting = without_entry (S.Handle.node handle) p.formatting }) self.old }
    {
        self.formatting.remove(handle);
    }

    // One turn of the outer loop. Whether another one follows.
    fn adoption_turn(&mut self, name: &ElementName<A>) -> Result<bool, TreeBuilderError>
        ensures { IfOk result (λ more. (again : Parser → Parser) → on_parser (if more then again else λ p. p) self.new
            ≡ on_parser (λ p. turn again (name_bytes name.now) (last_named (name_bytes name.now) p.formatting) p) self.old) }
    {
        let Some(element) = self.last_listed(name)? else {
            self.any_other_end_tag(name)?;
            return Ok(false);
        };
        let wanted = Wanted::Node(element.handle);
        if !self.has_open(&wanted) {
            self.mistaken(Mistake::FormattingNotOpen)?;
            self.unlist(element.handle);
            return Ok(false);
        }
        if !self.has_in_scope(Scope::Default, &wanted) {
            self.mistaken(Mistake::FormattingNotInScope)?;
            return Ok(false);
        }
        let block = self.furthest_block(element.handle);
        self.expect_current(&wanted)?;
        let Some(depth) = block else {
            self.pop_until(&wanted)?;
            self.unlist(element.handle);
            return Ok(false);
        };
        self.adopt(element, depth)?;
        Ok(true)
    }

    // The outer loop, of at most 8 turns.
    #[tactic(auto, unfolding(tree_construction::specs::Adoption::outer_loop))]
    fn adoption_turns(&mut self, name: &ElementName<A>) -> Result<(), TreeBuilderError>
        ensures { OnOk result (self.new ≡ on_parser (outer_loop 8 (name_bytes name.now)) self.old) }
    {
        let mut turns = 8u8;
        while turns > 0 {
            if !self.adoption_turn(name)? {
                return Ok(());
            }
            turns -= 1;
        }
        Ok(())
    }

    // Whether the current node is an HTML element of a name that is not in the list.
    fn current_is_unlisted(&self, name: &ElementName<A>) -> bool
        ensures { result ≡ current_passes (is_unlisted (name_bytes name.now) self.now.parser.formatting) self.now.parser.page.opened }
    {
        match self.opened.top() {
            Some(element) => {
                element.is(&Wanted::Named(name)) && !self.formatting.has(element.handle)
            }
            None => false,
        }
    }

    /// "The adoption agency algorithm".
    pub fn adoption_agency(&mut self, name: &ElementName<A>) -> Result<(), TreeBuilderError>
        ensures { OnOk result (self.new ≡ on_parser (adoption_agency (name_bytes name.now)) self.old) }
    {
        if self.current_is_unlisted(name) {
            self.pop()
        } else {
            self.adoption_turns(name)
        }
    }
}
