//! "The adoption agency algorithm", where there is a furthest block.
ghost use Rattle.std.specs.Prelude.{◌≡◌, ◌==◌, ◌<◌, ◌≤◌, ◌+◌, ◌++◌, ◌∷◌, [], suc, true, Some, IfOk, IfNone, IfSome, MatchOption, OnOk, drop, length, option_map, take, if◌then◌else◌};
ghost use Rattle.tree_construction.specs.Adoption.{adopted, at_bookmark, cloned, entry_of as entry_in, inner_loop, inner_start, list_at, opened_inside, opened_outside, remade, remade_open, remake};
ghost use Rattle.tree_construction.specs.Page.{has_number, has_open};
ghost use Rattle.tree_construction.specs.Page.Place.{LastChild};
ghost use Rattle.tree_construction.specs.Page.Edit.{MoveChildren, Pop, Put, Remove};
ghost use Rattle.tree_construction.specs.Parser.{on_page, place_in};
ghost use Rattle.tree_builder.specs.Adopting.{inner_of, pushed_back, remade_in, with_inner, with_opened};
ghost use Rattle.tree_builder.specs.Built.{on_parser};
ghost use Rattle.tree_lists.specs.Formatting.{listed_of};
ghost use Rattle.tree_lists.specs.Opened.{node_in, open_of, opened_of};
ghost use Rattle.tree_lists.specs.Places.{IsNotOpen, IsOpenAt};
ghost use Rattle.tree_sink.specs.Places.{place_of as sink_place};

use crate::builder::Builder;
use std::alloc::Allocator;
use tree_construction::kinds::Namespace;
use tree_lists::formatting::Formatting;
use tree_lists::opened::OpenElement;
use tree_lists::stack::Stack;
use tree_sink::attributes::TagAttributes;
use tree_sink::error::TreeBuilderError;
use tree_sink::handle::NodeHandle;
use tree_sink::place::InsertionPoint;
use tree_sink::sink::TreeSink;

/// Where the inner loop stands.
#[derive(Drop)]
pub struct Adopting<H, A: Allocator> {
    /// "Last node".
    pub last: H,
    /// "Bookmark": after the entry of this node, or else in the place of the formatting element.
    pub bookmark: Option<H>,
    /// The elements that were made for those that are still in the list, the innermost at the bottom.
    pub clones: Stack<OpenElement<H, A>, A>,
}

// "If last node is furthest block, then move the bookmark to be immediately after the new node".
fn bookmark_after<H: NodeHandle>(last: H, block: H, new: H, bookmark: Option<H>) -> Option<H>
    ensures { node_in H.node result ≡ (if H.node last == H.node block then Some (H.node new) else node_in H.node bookmark) }
{
    if last.is(block) { Some(new) } else { bookmark }
}

impl<S: TreeSink<T> + Drop, T: TagAttributes, A: Allocator + Copy> Builder<S, T, A> {
    // After the third turn of the inner loop an element is removed from the list.
    fn limit_listed(&mut self, count: usize, handle: S::Handle)
        ensures { self.new ≡ on_parser (λ p. record p { formatting = list_at count (S.Handle.node handle) p.formatting }) self.old }
    {
        if count > 3 {
            self.formatting.remove(handle);
        }
    }

    // Makes the element of a node's entry again, which takes its place in the list.
    fn remake(
        &mut self,
        handle: S::Handle,
    ) -> Result<Option<OpenElement<S::Handle, A>>, TreeBuilderError>
        ensures parser { OnOk result (self.new
            ≡ on_parser (remade_in (entry_in (S.Handle.node handle) self.old.parser.formatting) (S.Handle.node handle)) self.old) }
        ensures element { IfOk result (λ element. option_map (open_of S.Handle.node) element
            ≡ option_map (remade_open self.old.parser.page.next) (entry_in (S.Handle.node handle) self.old.parser.formatting)) }
    {
        let Some(element) = self.formatting.entry(handle) else {
            return Ok(None);
        };
        let new = self.editor.create_element(
            Namespace::Html,
            element.name.as_str(),
            &element.attributes,
        )?;
        let open = OpenElement {
            handle: new,
            kind: element.kind.kind(),
            name: element.name.try_clone()?,
        };
        self.formatting.renew(handle, new)?;
        Ok(Some(open))
    }

    // An element leaves the stack, and the last node goes into its clone.
    fn move_into(
        &mut self,
        old: S::Handle,
        clone: S::Handle,
        last: S::Handle,
    ) -> Result<(), TreeBuilderError>
        ensures { OnOk result (self.new ≡ on_parser (on_page (λ page. record page {
          edits =
              Put (LastChild (S.Handle.node clone)) (S.Handle.node last) ∷ Remove (S.Handle.node last) ∷ Pop (S.Handle.node old) ∷ page.edits;
        })) self.old) }
    {
        self.editor.pop(old)?;
        self.editor.remove(last)?;
        self.editor.put(InsertionPoint::LastChild(clone), last)
    }

    // One turn of the inner loop, with an element that was taken from the stack.
    fn adopt_one(
        &mut self,
        block: S::Handle,
        count: usize,
        handle: S::Handle,
        at: Adopting<S::Handle, A>,
    ) -> Result<Adopting<S::Handle, A>, TreeBuilderError>
        ensures inner { IfOk result (λ later. inner_of S.Handle.node self.new later ≡ cloned (S.Handle.node block) (S.Handle.node handle)
            (entry_in (S.Handle.node handle) (list_at count (S.Handle.node handle) self.old.parser.formatting))
            (list_at count (S.Handle.node handle) self.old.parser.formatting) (inner_of S.Handle.node self.old at)) }
        ensures rest { OnOk result (self.new ≡ with_inner self.new self.old) }
    {
        self.limit_listed(count, handle);
        let Some(clone) = self.remake(handle)? else {
            self.note_popped(handle)?;
            return Ok(at);
        };
        let Adopting {
            last,
            bookmark,
            mut clones,
        } = at;
        let new = clone.handle;
        self.move_into(handle, new, last)?;
        clones.push(clone)?;
        Ok(Adopting {
            last: new,
            bookmark: bookmark_after(last, block, new, bookmark),
            clones,
        })
    }

    // Tells the sink that an element left the stack.
    fn note_popped(&mut self, handle: S::Handle) -> Result<(), TreeBuilderError>
        ensures { OnOk result (self.new ≡ on_parser (on_page (λ page. record page { edits = Pop (S.Handle.node handle) ∷ page.edits })) self.old) }
    {
        self.editor.pop(handle)
    }

    // Takes the current node from the stack, which the sink isn't told.
    fn take_open(&mut self) -> Option<OpenElement<S::Handle, A>>
        ensures opened { self.new ≡ on_parser (on_page (λ page. record page { opened = drop 1 page.opened })) self.old }
        ensures none { IfNone result (self.old.parser.page.opened ≡ []) }
        ensures some { IfSome result (λ e. self.old.parser.page.opened ≡ open_of S.Handle.node e ∷ drop 1 self.old.parser.page.opened) }
    {
        self.opened.pop()
    }

    // The inner loop, over the elements up to the formatting element, which leaves the stack as they do.
    #[tactic(auto, unfolding(tree_construction::specs::Adoption::inner_loop, tree_construction::specs::Adoption::opened_inside, tree_construction::specs::Adoption::opened_outside))]
    fn adopt_up_to(
        &mut self,
        block: S::Handle,
        formatting: S::Handle,
    ) -> Result<Adopting<S::Handle, A>, TreeBuilderError>
        ensures inner { IfOk result (λ at. inner_of S.Handle.node self.new at ≡ inner_loop (S.Handle.node block) 1
            (opened_inside (S.Handle.node formatting) self.old.parser.page.opened) (inner_start self.old.parser (S.Handle.node block))) }
        ensures rest { OnOk result (self.new ≡ with_opened (opened_outside (S.Handle.node formatting) self.old.parser.page.opened)
            (with_inner self.new self.old)) }
    {
        let mut at = Adopting {
            last: block,
            bookmark: None,
            clones: Stack::new(self.alloc),
        };
        for turn in 0..self.open_len() {
            let Some(element) = self.take_open() else {
                return Ok(at);
            };
            if element.handle.is(formatting) {
                return Ok(at);
            }
            at = self.adopt_one(block, turn + 1, element.handle, at)?;
        }
        Ok(at)
    }

    // The appropriate place for inserting a node, in what stands outside the formatting element.
    fn place_outside(
        &self,
        formatting: S::Handle,
        depth: usize,
    ) -> Result<InsertionPoint<S::Handle>, TreeBuilderError>
        requires stands { depth < length self.now.parser.page.opened }
        requires around { has_open (has_number (S.Handle.node formatting)) (drop (depth + 1) self.now.parser.page.opened) ≡ true }
        ensures { IfOk result (λ place. sink_place S.Handle.node place ≡ place_in self.now.parser
            (opened_outside (S.Handle.node formatting) (drop (depth + 1) self.now.parser.page.opened))) }
    {
        let count = self.open_len();
        let Some(inside) = self.find_from(depth + 1, formatting) else {
            unreachable!()
        };
        if inside >= count - depth - 1 {
            unreachable!()
        }
        self.place_in(depth + 1 + inside + 1)
    }

    // How many elements stand from a depth on inside a node, if it is open there.
    fn find_from(&self, from: usize, handle: S::Handle) -> Option<usize>
        requires { from ≤ length self.now.parser.page.opened }
        ensures { MatchOption result (IsNotOpen (S.Handle.node handle) (drop from self.now.parser.page.opened))
            (λ count. IsOpenAt (S.Handle.node handle) (drop from self.now.parser.page.opened) count) }
    {
        self.opened.find_from(from, handle)
    }

    // Takes the elements inside the one at a depth from the stack, which the sink isn't told.
    fn take_within(
        &mut self,
        depth: usize,
    ) -> Result<Stack<OpenElement<S::Handle, A>, A>, TreeBuilderError>
        requires { depth < length self.old.parser.page.opened }
        ensures rest { OnOk result (self.new ≡ on_parser (on_page (λ page. record page { opened = drop depth page.opened })) self.old) }
        ensures front { IfOk result (λ within. opened_of S.Handle.node within ≡ take depth self.old.parser.page.opened) }
    {
        let within = self.opened.take_front(depth)?;
        Ok(within)
    }

    // Puts the last node at its place.
    fn put_last(
        &mut self,
        place: InsertionPoint<S::Handle>,
        last: S::Handle,
    ) -> Result<(), TreeBuilderError>
        ensures { OnOk result (self.new ≡ on_parser (on_page (λ page. record page {
          edits =
              Put (sink_place S.Handle.node place) (S.Handle.node last) ∷ Remove (S.Handle.node last) ∷ page.edits;
        })) self.old) }
    {
        self.editor.remove(last)?;
        self.editor.put(place, last)
    }

    // The children of the furthest block go into a new element, and that into the block. The formatting element has left the
    // stack.
    fn adopt_children(
        &mut self,
        formatting: &Formatting<S::Handle, T, A>,
        block: S::Handle,
    ) -> Result<S::Handle, TreeBuilderError>
        ensures page { OnOk result (self.new ≡ on_parser (on_page (λ page. record page {
          next = suc page.next;
          edits = Pop (S.Handle.node formatting.now.handle) ∷ Put (LastChild (S.Handle.node block)) page.next ∷ MoveChildren (S.Handle.node block) page.next
              ∷ remake page.next (listed_of S.Handle.node T.said formatting.now) ∷ page.edits;
        })) self.old) }
        ensures node { IfOk result (λ handle. S.Handle.node handle ≡ self.old.parser.page.next) }
    {
        let new = self.editor.create_element(
            Namespace::Html,
            formatting.name.as_str(),
            &formatting.attributes,
        )?;
        self.editor.move_children(block, new)?;
        self.editor.put(InsertionPoint::LastChild(block), new)?;
        self.editor.pop(formatting.handle)?;
        Ok(new)
    }

    // Puts the new element into the list where the bookmark is.
    fn list_adopted(
        &mut self,
        bookmark: Option<S::Handle>,
        formatting: Formatting<S::Handle, T, A>,
        new: S::Handle,
    ) -> Result<(), TreeBuilderError>
        ensures { OnOk result (self.new ≡ on_parser (λ p. record p {
          formatting = at_bookmark (node_in S.Handle.node bookmark)
              (S.Handle.node formatting.handle) (remade (S.Handle.node new) (listed_of S.Handle.node T.said formatting)) p.formatting;
        }) self.old) }
    {
        let handle = formatting.handle;
        let element = Formatting {
            handle: new,
            kind: formatting.kind,
            name: formatting.name,
            attributes: formatting.attributes,
        };
        self.formatting.put_at_bookmark(bookmark, handle, element)?;
        Ok(())
    }

    // Opens an element, which the sink isn't told.
    fn push_open(&mut self, element: OpenElement<S::Handle, A>) -> Result<(), TreeBuilderError>
        ensures { OnOk result (self.new ≡ on_parser (on_page (λ page. record page { opened = open_of S.Handle.node element ∷ page.opened })) self.old) }
    {
        self.opened.push(element)?;
        Ok(())
    }

    // Opens elements, the first one first.
    #[tactic(auto, unfolding(crate::specs::Adopting::pushed_back))]
    fn push_all(
        &mut self,
        elements: Stack<OpenElement<S::Handle, A>, A>,
    ) -> Result<(), TreeBuilderError>
        ensures { OnOk result (self.new ≡ on_parser (on_page (λ page. record page {
          opened = pushed_back (opened_of S.Handle.node elements) page.opened;
        })) self.old) }
    {
        let mut left = elements;
        while let Some(element) = left.pop() {
            self.push_open(element)?;
        }
        Ok(())
    }

    // Opens elements inside the others, in their order.
    fn put_within(
        &mut self,
        within: Stack<OpenElement<S::Handle, A>, A>,
    ) -> Result<(), TreeBuilderError>
        ensures { OnOk result (self.new ≡ on_parser (on_page (λ page. record page {
          opened = opened_of S.Handle.node within ++ page.opened;
        })) self.old) }
    {
        self.opened.put_front(within)?;
        Ok(())
    }

    /// What is done with the furthest block, by its depth.
    pub(crate) fn adopt(
        &mut self,
        formatting: Formatting<S::Handle, T, A>,
        depth: usize,
    ) -> Result<(), TreeBuilderError>
        requires stands { depth < length self.old.parser.page.opened }
        requires around { has_open (has_number (S.Handle.node formatting.handle)) (drop (depth + 1) self.old.parser.page.opened) ≡ true }
        ensures { OnOk result (self.new ≡ on_parser (λ p. adopted p (listed_of S.Handle.node T.said formatting) depth) self.old) }
    {
        let place = self.place_outside(formatting.handle, depth)?;
        let within = self.take_within(depth)?;
        let Some(block) = self.take_open() else {
            unreachable!()
        };
        let at = self.adopt_up_to(block.handle, formatting.handle)?;
        self.put_last(place, at.last)?;
        let new = self.adopt_children(&formatting, block.handle)?;
        let inside = OpenElement {
            handle: new,
            kind: formatting.kind.kind(),
            name: formatting.name.try_clone()?,
        };
        self.list_adopted(at.bookmark, formatting, new)?;
        self.push_all(at.clones)?;
        self.push_open(block)?;
        self.push_open(inside)?;
        self.put_within(within)
    }
}
