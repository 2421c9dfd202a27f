//! "The appropriate place for inserting a node".
ghost use Rattle.std.specs.Prelude.{◌≡◌, ◌<◌, ◌≤◌, drop, length, IfOk};
ghost use Rattle.tree_construction.specs.Page.{foster_place, inside, inside_first};
ghost use Rattle.tree_construction.specs.Parser.{is_fostered, is_too_deep, last_child_of, place_in, place_of, within_depth};
ghost use Rattle.tree_lists.specs.Opened.{open_of};
ghost use Rattle.tree_sink.specs.Places.{place_of as sink_place};

use crate::builder::Builder;
use std::alloc::Allocator;
use tree_lists::opened::OpenElement;
use tree_sink::attributes::TagAttributes;
use tree_sink::error::TreeBuilderError;
use tree_sink::place::InsertionPoint;
use tree_sink::sink::TreeSink;

impl<S: TreeSink<T> + Drop, T: TagAttributes, A: Allocator> Builder<S, T, A> {
    // What stands in an element is put into its template contents, if it is a template.
    fn inside(&self, element: &OpenElement<S::Handle, A>) -> Result<S::Handle, TreeBuilderError>
        ensures { IfOk result (λ handle. S.Handle.node handle ≡ inside (open_of S.Handle.node element.now)) }
    {
        if element.kind.is_template() {
            self.editor.contents_of(element.handle)
        } else {
            Ok(element.handle)
        }
    }

    // The same of the element at a depth, or else the document.
    fn inside_at(&self, depth: usize) -> Result<S::Handle, TreeBuilderError>
        ensures { IfOk result
            (λ handle. S.Handle.node handle ≡ inside_first (drop depth self.now.parser.page.opened)) }
    {
        if depth < self.opened.len() {
            self.inside(self.opened.at(depth))
        } else {
            Ok(self.editor.document())
        }
    }

    // "Foster parenting": before the last table, or in the last template.
    #[tactic(auto, unfolding(tree_construction::specs::Page::foster_place_in))]
    fn foster_place(&self) -> Result<InsertionPoint<S::Handle>, TreeBuilderError>
        ensures { IfOk result
            (λ place. sink_place S.Handle.node place ≡ foster_place self.now.parser.page.opened) }
    {
        let mut passed = self.editor.document();
        for depth in 0..self.open_len() {
            let element = self.opened.at(depth);
            if element.kind.is_template() {
                return Ok(InsertionPoint::LastChild(self.inside(element)?));
            }
            if element.kind.is_table() {
                return Ok(InsertionPoint::TableFosterParenting {
                    element: element.handle,
                    prev_element: self.inside_at(depth + 1)?,
                });
            }
            passed = self.inside(element)?;
        }
        Ok(InsertionPoint::LastChild(passed))
    }

    // Whether what is put into the element at a depth is foster parented.
    fn is_fostered(&self, depth: usize) -> bool
        ensures { result ≡ is_fostered self.now.parser (drop depth self.now.parser.page.opened) }
    {
        self.fostering && depth < self.opened.len() && self.opened.at(depth).kind.is_fostering()
    }

    /// The appropriate place for inserting a node, in the element at a depth.
    pub fn place_in(&self, depth: usize) -> Result<InsertionPoint<S::Handle>, TreeBuilderError>
        ensures { IfOk result (λ place. sink_place S.Handle.node place
            ≡ place_in self.now.parser (drop depth self.now.parser.page.opened)) }
    {
        if self.is_fostered(depth) {
            self.foster_place()
        } else {
            Ok(InsertionPoint::LastChild(self.inside_at(depth)?))
        }
    }

    // Whether more elements are open than the limit of the depth allows.
    fn is_too_deep(&self, extra: usize) -> bool
        ensures { result ≡ is_too_deep extra self.now.parser.options.depth_limit self.now.parser.page.opened }
    {
        match self.opts.depth_limit {
            Some(limit) => limit < self.opened.len().saturating_sub(extra),
            None => false,
        }
    }

    // In the current node, or beside it where it is too deep.
    fn within_depth(&self, extra: usize) -> Result<InsertionPoint<S::Handle>, TreeBuilderError>
        ensures { IfOk result (λ place. sink_place S.Handle.node place
            ≡ within_depth extra self.now.parser.options.depth_limit self.now.parser.page.opened) }
    {
        match self.opened.top() {
            None => Ok(InsertionPoint::LastChild(self.editor.document())),
            Some(element) => {
                if self.is_too_deep(extra) {
                    Ok(InsertionPoint::BesideNode(element.handle))
                } else {
                    Ok(InsertionPoint::LastChild(self.inside(element)?))
                }
            }
        }
    }

    /// The appropriate place for inserting a node, within the limit of the depth and so many elements more.
    pub fn place(&self, extra: usize) -> Result<InsertionPoint<S::Handle>, TreeBuilderError>
        ensures { IfOk result (λ place. sink_place S.Handle.node place ≡ place_of extra self.now.parser) }
    {
        if self.is_fostered(0) {
            self.foster_place()
        } else {
            self.within_depth(extra)
        }
    }
}
