//! "The stack of open elements".
ghost use Rattle.std.specs.Prelude.{◌≡◌, ◌<◌, ◌≤◌, ◌+◌, List, [], ◌∷◌, ◌++◌, not, drop, length, option_map, take, IfNone, IfOk, IfSome, MatchOption, OnErr, OnOk};
ghost use Rattle.tree_construction.specs.Adoption.{ended_by, furthest_block, nth_open, opened_inside};
ghost use Rattle.tree_construction.specs.InBody.{item_met};
ghost use Rattle.tree_construction.specs.Names.{may_stay_open};
ghost use Rattle.tree_construction.specs.Page.{current_passes, first_open, has_in_scope, has_kind, has_name, has_open, second_body, without_open};
ghost use Rattle.tree_construction.specs.Parser.{kind_at_top};
ghost use Rattle.tree_names.specs.ElementNames.{name_bytes};
ghost use Rattle.tree_lists.specs.Opened.{node_in, open_of, opened_of};
ghost use Rattle.tree_lists.specs.Places.{IsNotOpen, IsOpenAt};
ghost use Rattle.tree_lists.specs.Wanted.{ends, is_in, is_wanted};

use crate::stack::Stack;
use crate::wanted::{KindSet, Scope, Wanted};
use std::alloc::{AllocError, Allocator};
use std::marker::Model;
use tree_construction::kinds::Kind;
use tree_names::name::ElementName;
use tree_sink::handle::NodeHandle;

/// An element that is open.
#[derive(Drop)]
pub struct OpenElement<H, A: Allocator> {
    pub handle: H,
    pub kind: Kind,
    pub name: ElementName<A>,
}

/// The elements that are open. Contracts see the current node first.
#[derive(Drop)]
pub struct OpenElements<H: NodeHandle, A: Allocator> {
    items: Stack<OpenElement<H, A>, A>,
}

impl<H: NodeHandle, A: Allocator> Model for OpenElements<H, A> {
    ghost use Rattle.std.specs.Prelude.{List};
    ghost use Rattle.tree_construction.specs.Page.{Open};
    ghost use Rattle.tree_lists.specs.Opened.{opened_of};

    ghost Value = { List Open };

    ghost view = { λ s. opened_of H.node s.items };
}

impl<H: NodeHandle, A: Allocator> OpenElement<H, A> {
    /// Whether it is what is searched for.
    pub fn is(&self, wanted: &Wanted<'_, H, A>) -> bool
        ensures { result ≡ is_wanted H.node wanted.now (open_of H.node self.now) }
    {
        match wanted {
            Wanted::Of(set) => set.has(self.kind),
            Wanted::Named(name) => self.is_named(name),
            Wanted::Node(handle) => self.handle.is(*handle),
        }
    }

    /// Whether it is an HTML element of a name.
    pub fn is_named(&self, name: &ElementName<A>) -> bool
        ensures { result ≡ has_name (name_bytes name.now) (open_of H.node self.now) }
    {
        self.kind.is_html() && self.name.is(name)
    }
}

impl<H: NodeHandle, A: Allocator> OpenElements<H, A> {
    /// No element is open.
    pub fn new(alloc: A) -> OpenElements<H, A>
        ensures { result ≡ [] }
    {
        OpenElements {
            items: Stack::new(alloc),
        }
    }

    /// How many elements are open.
    pub fn len(&self) -> usize
        ensures { result ≡ length self.now }
    {
        self.items.len()
    }

    /// Opens an element inside the others.
    pub fn push(&mut self, element: OpenElement<H, A>) -> Result<(), AllocError>
        ensures ok { OnOk result (self.new ≡ open_of H.node element ∷ self.old) }
        ensures err { OnErr result (self.new ≡ self.old) }
    {
        self.items.push(element)
    }

    /// Closes the current node.
    pub fn pop(&mut self) -> Option<OpenElement<H, A>>
        ensures none { IfNone result (self.old ≡ []) }
        ensures some { IfSome result (λ e. self.old ≡ open_of H.node e ∷ self.new) }
        ensures rest { self.new ≡ drop 1 self.old }
    {
        self.items.pop()
    }

    /// The element at a depth, counted from the current node.
    pub fn at(&self, depth: usize) -> &OpenElement<H, A>
        requires { depth < length self.now }
        ensures { drop depth self.now ≡ open_of H.node result.now ∷ drop (depth + 1) self.now }
    {
        self.items.at(depth)
    }

    /// The current node.
    pub fn top(&self) -> Option<&OpenElement<H, A>>
        ensures none { IfNone result (self.now ≡ []) }
        ensures some { IfSome result (λ e. self.now ≡ open_of H.node e.now ∷ drop 1 self.now) }
    {
        if self.len() == 0 {
            None
        } else {
            Some(self.at(0))
        }
    }

    /// "Has an element in the specific scope".
    #[tactic(auto, unfolding(tree_construction::specs::Page::has_in_scope))]
    pub fn has_in_scope(&self, scope: Scope, wanted: &Wanted<'_, H, A>) -> bool
        ensures { result ≡ has_in_scope (ends scope) (is_wanted H.node wanted.now) self.now }
    {
        for depth in 0..self.len() {
            let element = self.at(depth);
            if element.is(wanted) {
                return true;
            }
            if scope.ends(element.kind) {
                return false;
            }
        }
        false
    }

    /// Whether such an element is open.
    #[tactic(auto, unfolding(tree_construction::specs::Page::has_open))]
    pub fn has(&self, wanted: &Wanted<'_, H, A>) -> bool
        ensures { result ≡ has_open (is_wanted H.node wanted.now) self.now }
    {
        for depth in 0..self.len() {
            if self.at(depth).is(wanted) {
                return true;
            }
        }
        false
    }

    /// Whether an element is open that may not stay open at the end of the body.
    #[tactic(auto, unfolding(tree_construction::specs::Page::has_open))]
    pub fn has_unclosed(&self) -> bool
        ensures { result ≡ has_open (λ e. not (may_stay_open e.kind)) self.now }
    {
        for depth in 0..self.len() {
            if !self.at(depth).kind.may_stay_open() {
                return true;
            }
        }
        false
    }

    /// Whether the current node is what is searched for.
    pub fn current_is(&self, wanted: &Wanted<'_, H, A>) -> bool
        ensures { result ≡ current_passes (is_wanted H.node wanted.now) self.now }
    {
        match self.top() {
            Some(element) => element.is(wanted),
            None => false,
        }
    }

    /// The kind of the current node, or before any is open that of an `html` element.
    pub fn current_kind(&self) -> Kind
        ensures { result ≡ kind_at_top self.now }
    {
        match self.top() {
            Some(element) => element.kind,
            None => Kind::HtmlRoot,
        }
    }

    /// The first element that was opened, the `html` element.
    pub fn first(&self) -> Option<H>
        ensures none { IfNone result (self.now ≡ []) }
        ensures some { IfSome result (λ handle. first_open self.now ≡ H.node handle) }
    {
        let count = self.len();
        if count == 0 {
            None
        } else {
            Some(self.at(count - 1).handle)
        }
    }

    /// The second element that was opened, if it is a `body`.
    pub fn second_body(&self) -> Option<H>
        ensures { node_in H.node result ≡ second_body self.now }
    {
        let count = self.len();
        if count < 2 {
            return None;
        }
        let element = self.at(count - 2);
        if element.kind.is_body() {
            Some(element.handle)
        } else {
            None
        }
    }

    /// How deep a node stands, if it is open.
    pub fn find(&self, handle: H) -> Option<usize>
        ensures { MatchOption result (IsNotOpen (H.node handle) self.now)
            (λ depth. IsOpenAt (H.node handle) self.now depth) }
    {
        for depth in 0..self.len() {
            if self.at(depth).handle.is(handle) {
                return Some(depth);
            }
        }
        None
    }

    /// How many elements stand from a depth on inside a node, if it is open there.
    pub fn find_from(&self, from: usize, handle: H) -> Option<usize>
        requires { from ≤ length self.now }
        ensures { MatchOption result (IsNotOpen (H.node handle) (drop from self.now))
            (λ count. IsOpenAt (H.node handle) (drop from self.now) count) }
    {
        for count in 0..self.len() - from {
            if self.at(from + count).handle.is(handle) {
                return Some(count);
            }
        }
        None
    }

    /// Takes out the element at a depth.
    pub fn remove_at(&mut self, depth: usize) -> OpenElement<H, A>
        requires { depth < length self.old }
        ensures item { drop depth self.old ≡ open_of H.node result ∷ drop (depth + 1) self.old }
        ensures list { self.new ≡ take depth self.old ++ drop (depth + 1) self.old }
    {
        self.items.remove_at(depth)
    }

    /// Puts in an element at a depth.
    pub fn insert_at(&mut self, depth: usize, element: OpenElement<H, A>) -> Result<(), AllocError>
        requires { depth < length self.old + 1 }
        ensures ok { OnOk result
            (self.new ≡ take depth self.old ++ open_of H.node element ∷ drop depth self.old) }
    {
        self.items.insert_at(depth, element)
    }

    /// Puts another element in the place of the one at a depth.
    pub fn replace_at(&mut self, depth: usize, element: OpenElement<H, A>) -> Result<(), AllocError>
        requires { depth < length self.old }
        ensures ok { OnOk result
            (self.new ≡ take depth self.old ++ open_of H.node element ∷ drop (depth + 1) self.old) }
    {
        self.items.replace_at(depth, element)
    }

    /// Takes out a node, wherever it stands.
    pub fn remove(&mut self, handle: H)
        ensures { self.new ≡ without_open (H.node handle) self.old }
    {
        if let Some(depth) = self.find(handle) {
            self.remove_at(depth);
        }
    }

    /// "Furthest block": how deep the outermost special element in a node stands.
    #[tactic(auto, unfolding(tree_construction::specs::Adoption::furthest_block, tree_construction::specs::Adoption::opened_inside))]
    pub fn furthest_block(&self, handle: H) -> Option<usize>
        ensures { furthest_block (opened_inside (H.node handle) self.now) ≡ result }
    {
        let mut block = None;
        for depth in 0..self.len() {
            let element = self.at(depth);
            if element.handle.is(handle) {
                return block;
            }
            if !element.kind.is_special() {
                continue;
            }
            block = Some(depth);
        }
        block
    }

    /// The element that "any other end tag" of a name ends.
    #[tactic(auto, unfolding(tree_construction::specs::Adoption::ended_by))]
    pub fn ended_by(&self, name: &ElementName<A>) -> Option<H>
        ensures { ended_by (name_bytes name.now) self.now ≡ node_in H.node result }
    {
        for depth in 0..self.len() {
            let element = self.at(depth);
            if element.is_named(name) {
                return Some(element.handle);
            }
            if element.kind.is_special() {
                return None;
            }
        }
        None
    }

    /// Opens elements inside the others, in their order.
    pub fn put_front(&mut self, front: Stack<OpenElement<H, A>, A>) -> Result<(), AllocError>
        ensures ok { OnOk result (self.new ≡ opened_of H.node front ++ self.old) }
    {
        self.items.put_front(front)
    }
}

impl<H: NodeHandle, A: Allocator + Copy> OpenElements<H, A> {
    /// The name of the item that a start tag `li`, `dd` or `dt` closes: of the innermost such element, if no other
    /// special one is met before it.
    #[tactic(auto, unfolding(tree_construction::specs::InBody::item_met))]
    pub fn item_met(&self, set: KindSet) -> Result<Option<ElementName<A>>, AllocError>
        ensures { IfOk result (λ found. option_map name_bytes found ≡ item_met (has_kind (is_in set)) self.now) }
    {
        for depth in 0..self.len() {
            let element = self.at(depth);
            if set.has(element.kind) {
                return Ok(Some(element.name.try_clone()?));
            }
            if element.kind.ends_item_search() {
                return Ok(None);
            }
        }
        Ok(None)
    }

    /// Takes the elements inside the one at a depth.
    pub fn take_front(&mut self, depth: usize) -> Result<Stack<OpenElement<H, A>, A>, AllocError>
        requires { depth < length self.old + 1 }
        ensures front { IfOk result (λ front. opened_of H.node front ≡ take depth self.old) }
        ensures rest { OnOk result (self.new ≡ drop depth self.old) }
    {
        let front = self.items.take_front(depth)?;
        Ok(front)
    }
}
