//! The elements that are open while items are made to fit.
ghost use Rattle.std.specs.Prelude.{◌≡◌, ℕ, ◌≤◌, List, ◌∷◌, IfOk, MatchOption, OnErr, OnOk, drop, length, map, [], true};
ghost use Rattle.html5tree.specs.Fitting.{fits, open_after};
ghost use Rattle.html5tree.specs.Items.{Attribute};
ghost use Rattle.html5tree.specs.Items.Item.{EndTag, StartTag, Text};
ghost use Rattle.html5tree.specs.Normal.{IsReady, after_written, open_after_fitted, plan_of};
ghost use Rattle.html5tree.specs.Searches.{names_open};
ghost use Rattle.html5tree.specs.ElementNames.{name_of};
ghost use Rattle.html5tree.specs.Nested.{nested_after, nothing_nested, with_own};
ghost use Rattle.html5tree.specs.Planned.{plan_said};

use crate::fitting::{end_fits, start_fits, text_fits};
use crate::moves::follow;
use crate::names::ElementName;
use crate::normal::{plan_for_end, plan_for_start, plan_for_text};
use crate::plans::{Plan, Written};
use std::alloc::{AllocError, Allocator, Global};
use std::marker::Model;

/// The names of the elements that are open, and of those that were closed for the last item. It says for each item
/// what is done so that it fits.
#[derive(Drop)]
pub struct Nesting<A: Allocator = Global> {
    // The innermost last.
    opened: Vec<ElementName, A>,
    // The innermost first.
    closed: Vec<ElementName, A>,
    limit: usize,
}

impl<A: Allocator> Model for Nesting<A> {
    ghost use Rattle.std.specs.Prelude.{map};
    ghost use Rattle.html5tree.specs.ElementNames.{name_of};
    ghost use Rattle.html5tree.specs.Nested.{Nested};
    ghost use Rattle.html5tree.specs.Normal.{IsReady};
    ghost use Rattle.html5tree.specs.Searches.{names_open};

    ghost Value = { Nested };

    ghost view = { λ n. record {
      opened = names_open n.opened.items;
      closed = map name_of n.closed.items;
      limit = n.limit;
    } };

    ghost invariant = { λ n. IsReady n.limit (names_open n.opened.items) };
}

// The element that a start tag opens, if its plan writes it.
fn own_of(plan: Plan, name: ElementName) -> Option<ElementName>
    ensures { (stack : List (List ℕ)) (attributes : List Attribute)
        → with_own result stack ≡ after_written plan.writes stack (StartTag (name_of name) attributes) }
{
    match plan.writes {
        Written::Itself if !name.kind().is_void() => Some(name),
        _ => None,
    }
}

impl<A: Allocator> Nesting<A> {
    /// Nothing is open. At most this many elements will be.
    pub fn new(alloc: A, limit: usize) -> Nesting<A>
    where
        A: Copy,
        ensures { result ≡ nothing_nested limit }
    {
        Nesting {
            opened: Vec::new(alloc),
            closed: Vec::new(alloc),
            limit,
        }
    }

    /// The same open elements again. None was closed for the last item.
    pub fn try_clone(&self, alloc: A) -> Result<Nesting<A>, AllocError>
    where
        A: Copy,
        ensures { IfOk result (λ other. other ≡ record self.now { closed = [] }) }
    {
        Ok(Nesting {
            opened: Vec::from_slice(alloc, &self.opened)?,
            closed: Vec::new(alloc),
            limit: self.limit,
        })
    }

    /// Takes over the open elements and the limit of another, in the room that there is. None was closed for the last
    /// item. After a refused growth nothing is open here.
    pub fn copy_from(&mut self, other: &Nesting<A>) -> Result<(), AllocError>
        ensures { OnOk result (self.new ≡ record other.now { closed = [] }) }
    {
        self.opened.clear();
        self.opened.extend_from_slice(&other.opened)?;
        self.closed.clear();
        self.limit = other.limit;
        Ok(())
    }

    /// How many elements are open.
    pub fn depth(&self) -> usize
        ensures value { result ≡ length self.now.opened }
        ensures within { result ≤ self.now.limit }
        ensures ready { IsReady self.now.limit self.now.opened }
    {
        self.opened.len()
    }

    /// The names of the elements that were closed for the last item, the innermost first.
    pub fn closed(&self) -> &[ElementName]
        ensures { map name_of result.now ≡ self.now.closed }
    {
        &self.closed
    }

    /// Whether a start tag fits where these are open.
    pub fn start_fits(&self, name: ElementName) -> bool
        ensures { (attributes : List Attribute) → result ≡ fits self.now.opened (StartTag (name_of name) attributes) }
    {
        start_fits(&self.opened, name)
    }

    /// Whether an end tag fits.
    pub fn end_fits(&self, name: ElementName) -> bool
        ensures { result ≡ fits self.now.opened (EndTag (name_of name)) }
    {
        end_fits(&self.opened, name)
    }

    /// Whether a text fits.
    pub fn text_fits(&self, text: &str) -> bool
        ensures { result ≡ fits self.now.opened (Text text.now) }
    {
        text_fits(&self.opened, text)
    }

    /// Does what a start tag asks for. The plan, the names that were closed (`closed`) and the tag say what is to be
    /// written.
    pub fn start_tag(&mut self, name: ElementName) -> Result<Plan, AllocError>
        ensures plan { IfOk result (λ plan. (attributes : List Attribute)
            → plan_said plan ≡ plan_of self.old.limit self.old.opened (StartTag (name_of name) attributes)) }
        ensures ok { OnOk result ((attributes : List Attribute)
            → self.new ≡ nested_after self.old (StartTag (name_of name) attributes)) }
        ensures err { OnErr result (self.new ≡ self.old) }
    {
        let plan = plan_for_start(self.limit, &self.opened, name);
        follow(&mut self.opened, &mut self.closed, plan, own_of(plan, name))?;
        Ok(plan)
    }

    /// Opens an element inside the others, where a start tag of it does that alone.
    pub fn open(&mut self, name: ElementName) -> Result<(), AllocError>
        requires { open_after_fitted self.old.limit self.old.opened (StartTag (name_of name) [])
            ≡ name_of name ∷ self.old.opened }
        ensures ok { OnOk result (self.new ≡ record self.old { opened = name_of name ∷ self.old.opened }) }
        ensures err { OnErr result (self.new ≡ self.old) }
    {
        self.opened.push(name)?;
        Ok(())
    }

    /// Does what an end tag asks for.
    pub fn end_tag(&mut self, name: ElementName) -> Result<Plan, AllocError>
        ensures plan { IfOk result (λ plan.
            plan_said plan ≡ plan_of self.old.limit self.old.opened (EndTag (name_of name))) }
        ensures ok { OnOk result (self.new ≡ nested_after self.old (EndTag (name_of name))) }
        ensures err { OnErr result (self.new ≡ self.old) }
    {
        let plan = plan_for_end(self.limit, &self.opened, name);
        follow(&mut self.opened, &mut self.closed, plan, None)?;
        Ok(plan)
    }

    /// Does what a text asks for.
    pub fn text(&mut self, text: &str) -> Result<Plan, AllocError>
        ensures plan { IfOk result (λ plan. plan_said plan ≡ plan_of self.old.limit self.old.opened (Text text.now)) }
        ensures ok { OnOk result (self.new ≡ nested_after self.old (Text text.now)) }
        ensures err { OnErr result (self.new ≡ self.old) }
    {
        let plan = plan_for_text(self.limit, &self.opened, text);
        follow(&mut self.opened, &mut self.closed, plan, None)?;
        Ok(plan)
    }

    /// Closes the innermost element, if one is open. At the end each is closed so.
    pub fn close_one(&mut self) -> Option<ElementName>
        ensures opened { self.new ≡ record self.old { opened = drop 1 self.old.opened } }
        ensures closed { MatchOption result (self.old.opened ≡ [])
            (λ name. self.old.opened ≡ name_of name ∷ drop 1 self.old.opened) }
    {
        self.opened.pop()
    }
}
