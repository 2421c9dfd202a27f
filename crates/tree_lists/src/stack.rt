//! A list whose first item is the one that was added last.
ghost use Rattle.std.specs.Prelude.{◌≡◌, ◌<◌, ◌+◌, List, [], ◌∷◌, ◌++◌, drop, length, take, IfNone, IfOk, IfSome, OnErr, OnOk};

use std::alloc::{AllocError, Allocator};
use std::marker::Model;

/// A list whose first item is the one that was added last.
#[derive(Drop)]
pub struct Stack<X, A: Allocator> {
    items: Vec<X, A>,
}

impl<X, A: Allocator> Model for Stack<X, A> {
    ghost use Rattle.std.specs.Prelude.{List, reverse};

    ghost Value = { List X };

    ghost view = { λ s. reverse s.items.items };
}

impl<X: Drop, A: Allocator> Stack<X, A> {
    /// No items.
    pub fn new(alloc: A) -> Stack<X, A>
        ensures { result ≡ [] }
    {
        Stack {
            items: Vec::new(alloc),
        }
    }

    /// How many items there are.
    pub fn len(&self) -> usize
        ensures { result ≡ length self.now }
    {
        self.items.len()
    }

    /// Adds an item in front.
    pub fn push(&mut self, item: X) -> Result<(), AllocError>
        ensures ok { OnOk result (self.new ≡ item ∷ self.old) }
        ensures err { OnErr result (self.new ≡ self.old) }
    {
        self.items.push(item)?;
        Ok(())
    }

    /// Takes the first item.
    pub fn pop(&mut self) -> Option<X>
        ensures none { IfNone result (self.old ≡ []) }
        ensures some { IfSome result (λ item. self.old ≡ item ∷ self.new) }
        ensures rest { self.new ≡ drop 1 self.old }
    {
        self.items.pop()
    }

    /// The item at a depth, counted from the first.
    pub fn at(&self, depth: usize) -> &X
        requires { depth < length self.now }
        ensures { drop depth self.now ≡ result.now ∷ drop (depth + 1) self.now }
    {
        let at = self.items.len() - depth - 1;
        &self.items[at]
    }

    /// Takes out the item at a depth.
    pub fn remove_at(&mut self, depth: usize) -> X
        requires { depth < length self.old }
        ensures item { drop depth self.old ≡ result ∷ drop (depth + 1) self.old }
        ensures list { self.new ≡ take depth self.old ++ drop (depth + 1) self.old }
    {
        let at = self.items.len() - depth - 1;
        self.items.remove(at)
    }

    /// Puts in an item at a depth.
    pub fn insert_at(&mut self, depth: usize, item: X) -> Result<(), AllocError>
        requires { depth < length self.old + 1 }
        ensures ok { OnOk result (self.new ≡ take depth self.old ++ item ∷ drop depth self.old) }
    {
        let at = self.items.len() - depth;
        self.items.insert(at, item)?;
        Ok(())
    }

    /// Puts an item in the place of the one at a depth.
    pub fn replace_at(&mut self, depth: usize, item: X) -> Result<(), AllocError>
        requires { depth < length self.old }
        ensures ok { OnOk result (self.new ≡ take depth self.old ++ item ∷ drop (depth + 1) self.old) }
    {
        self.remove_at(depth);
        self.insert_at(depth, item)
    }

    /// Puts items in front, in their order.
    pub fn put_front(&mut self, front: Stack<X, A>) -> Result<(), AllocError>
        ensures ok { OnOk result (self.new ≡ front ++ self.old) }
    {
        let mut front = front;
        self.items.append(&mut front.items)?;
        Ok(())
    }
}

impl<X: Drop, A: Allocator + Copy> Stack<X, A> {
    /// Takes the first items, down to a depth.
    pub fn take_front(&mut self, depth: usize) -> Result<Stack<X, A>, AllocError>
        requires { depth < length self.old + 1 }
        ensures front { IfOk result (λ front. front ≡ take depth self.old) }
        ensures rest { OnOk result (self.new ≡ drop depth self.old) }
    {
        let at = self.items.len() - depth;
        let items = self.items.split_off(at)?;
        Ok(Stack { items })
    }
}
