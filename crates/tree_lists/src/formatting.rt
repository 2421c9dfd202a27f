//! "The list of active formatting elements".
ghost use Rattle.std.specs.Prelude.{◌≡◌, ◌<◌, ◌+◌, ◌-◌, List, [], ◌∷◌, ◌++◌, drop, length, map, option_map, reverse, take, IfNone, IfOk, IfSome, MatchOption, OnErr, OnOk};
ghost use Rattle.tree_construction.specs.Adoption.{added_after, at_bookmark, entry_of as entry_in, replaced};
ghost use Rattle.tree_construction.specs.Formatting.{Listed, cleared, count_after_marker, count_alike, has_entry, is_alike, is_entry_of, last_named, still_listed, to_reopen, with_entry, within_limit, without_earliest, without_entry, without_oldest};
ghost use Rattle.tree_construction.specs.Parser.{Entry};
ghost use Rattle.tree_names.specs.ElementNames.{name_bytes};
ghost use Rattle.tree_lists.specs.Formatting.{active_of, before_lost, entry_of, formatting_kind, is_lost, listed_of, renewed, with_room};
ghost use Rattle.tree_lists.specs.Opened.{node_in};
ghost use Rattle.tree_lists.specs.ListPlaces.{IsEarliest, IsListedAt, IsNotListed, IsOldest};

use crate::opened::OpenElements;
use crate::stack::Stack;
use crate::wanted::Wanted;
use std::alloc::{AllocError, Allocator};
use std::marker::Model;
use tree_construction::kinds::Kind;
use tree_names::name::ElementName;
use tree_sink::attributes::TagAttributes;
use tree_sink::handle::NodeHandle;

/// A kind of formatting elements.
#[derive(Clone, Copy, Debug, PartialEq, Eq)]
pub enum FormattingKind {
    Anchor,
    Font,
    /// `b`, `big`, `code`, and so on.
    Formatting,
    NoBreak,
}

impl FormattingKind {
    /// The kind of such an element.
    pub fn kind(self) -> Kind
        ensures { result ≡ formatting_kind self }
    {
        match self {
            FormattingKind::Anchor => Kind::Anchor,
            FormattingKind::Font => Kind::Font,
            FormattingKind::Formatting => Kind::Formatting,
            FormattingKind::NoBreak => Kind::NoBreak,
        }
    }
}

/// An active formatting element, with the attributes of the tag for which it was created.
#[derive(Drop)]
pub struct Formatting<H, T, A: Allocator> {
    pub handle: H,
    pub kind: FormattingKind,
    pub name: ElementName<A>,
    pub attributes: T,
}

/// An entry of the list.
#[derive(Drop)]
pub enum FormatEntry<H, T, A: Allocator> {
    /// "A marker".
    Mark,
    /// An element.
    Active(Formatting<H, T, A>),
}

/// The active formatting elements. Contracts see the last first.
#[derive(Drop)]
pub struct FormattingList<H: NodeHandle, T: TagAttributes, A: Allocator> {
    items: Stack<FormatEntry<H, T, A>, A>,
}

impl<H: NodeHandle, T: TagAttributes, A: Allocator> Model for FormattingList<H, T, A> {
    ghost use Rattle.std.specs.Prelude.{List};
    ghost use Rattle.tree_construction.specs.Parser.{Entry};
    ghost use Rattle.tree_lists.specs.Formatting.{entries_of};

    ghost Value = { List Entry };

    ghost view = { λ s. entries_of H.node T.said s.items };
}

impl<H: NodeHandle, T: TagAttributes, A: Allocator> Formatting<H, T, A> {
    // Whether it has the name and the attributes of another.
    fn is_alike(&self, other: &Formatting<H, T, A>) -> bool
        ensures { result ≡ is_alike (listed_of H.node T.said self.now).name (listed_of H.node T.said self.now).attributes
            (listed_of H.node T.said other.now).name (listed_of H.node T.said other.now).attributes }
    {
        self.name.is(&other.name) && self.attributes.is_same(&other.attributes)
    }
}

impl<H: NodeHandle, T: TagAttributes, A: Allocator> FormatEntry<H, T, A> {
    // Whether it is of a node.
    fn is_of(&self, handle: H) -> bool
        ensures { result ≡ is_entry_of (H.node handle) (entry_of H.node T.said self.now) }
    {
        match self {
            FormatEntry::Mark => false,
            FormatEntry::Active(element) => element.handle.is(handle),
        }
    }
}

impl<H: NodeHandle, T: TagAttributes, A: Allocator> FormattingList<H, T, A> {
    /// A list of no entries.
    pub fn new(alloc: A) -> FormattingList<H, T, A>
        ensures { result ≡ [] }
    {
        FormattingList {
            items: Stack::new(alloc),
        }
    }

    /// How many entries there are.
    pub fn len(&self) -> usize
        ensures { result ≡ length self.now }
    {
        self.items.len()
    }

    /// Adds an entry.
    pub fn push(&mut self, entry: FormatEntry<H, T, A>) -> Result<(), AllocError>
        ensures ok { OnOk result (self.new ≡ entry_of H.node T.said entry ∷ self.old) }
        ensures err { OnErr result (self.new ≡ self.old) }
    {
        self.items.push(entry)
    }

    // Takes the last entry.
    fn pop(&mut self) -> Option<FormatEntry<H, T, A>>
        ensures none { IfNone result (self.old ≡ []) }
        ensures some { IfSome result (λ entry. self.old ≡ entry_of H.node T.said entry ∷ self.new) }
        ensures rest { self.new ≡ drop 1 self.old }
    {
        self.items.pop()
    }

    /// The entry at a depth, counted from the last.
    pub fn at(&self, depth: usize) -> &FormatEntry<H, T, A>
        requires { depth < length self.now }
        ensures { drop depth self.now ≡ entry_of H.node T.said result.now ∷ drop (depth + 1) self.now }
    {
        self.items.at(depth)
    }

    /// Takes out the entry at a depth.
    pub fn remove_at(&mut self, depth: usize) -> FormatEntry<H, T, A>
        requires { depth < length self.old }
        ensures item { drop depth self.old ≡ entry_of H.node T.said result ∷ drop (depth + 1) self.old }
        ensures list { self.new ≡ take depth self.old ++ drop (depth + 1) self.old }
    {
        self.items.remove_at(depth)
    }

    /// Puts in an entry at a depth.
    pub fn insert_at(&mut self, depth: usize, entry: FormatEntry<H, T, A>) -> Result<(), AllocError>
        requires { depth < length self.old + 1 }
        ensures ok { OnOk result
            (self.new ≡ take depth self.old ++ entry_of H.node T.said entry ∷ drop depth self.old) }
    {
        self.items.insert_at(depth, entry)
    }

    /// Puts another entry in the place of the one at a depth.
    pub fn replace_at(
        &mut self,
        depth: usize,
        entry: FormatEntry<H, T, A>,
    ) -> Result<(), AllocError>
        requires { depth < length self.old }
        ensures ok { OnOk result
            (self.new ≡ take depth self.old ++ entry_of H.node T.said entry ∷ drop (depth + 1) self.old) }
    {
        self.items.replace_at(depth, entry)
    }

    /// Whether there is an entry of a node.
    #[tactic(auto, unfolding(tree_construction::specs::Formatting::has_entry))]
    pub fn has(&self, handle: H) -> bool
        ensures { result ≡ has_entry (H.node handle) self.now }
    {
        for depth in 0..self.len() {
            if self.at(depth).is_of(handle) {
                return true;
            }
        }
        false
    }

    /// "Clear the list of active formatting elements up to the last marker".
    #[tactic(auto, unfolding(tree_construction::specs::Formatting::cleared))]
    pub fn clear_to_marker(&mut self)
        ensures { self.new ≡ cleared self.old }
    {
        while let Some(entry) = self.pop() {
            if matches!(entry, FormatEntry::Mark) {
                return;
            }
        }
    }

    /// How deep the entry of a node stands, if there is one.
    pub fn find(&self, handle: H) -> Option<usize>
        ensures { MatchOption result (IsNotListed (H.node handle) self.now)
            (λ depth. (e : Listed) × IsListedAt (H.node handle) self.now depth e) }
    {
        for depth in 0..self.len() {
            if self.at(depth).is_of(handle) {
                return Some(depth);
            }
        }
        None
    }

    /// Takes out the entry of a node.
    pub fn remove(&mut self, handle: H)
        ensures { self.new ≡ without_entry (H.node handle) self.old }
    {
        if let Some(depth) = self.find(handle) {
            self.remove_at(depth);
        }
    }

    /// The last element of a name, after the last marker.
    #[tactic(auto, unfolding(tree_construction::specs::Formatting::last_named))]
    pub fn last_named(&self, name: &ElementName<A>) -> Option<&Formatting<H, T, A>>
        ensures { MatchOption result (last_named (name_bytes name.now) self.now ≡ None)
            (λ e. last_named (name_bytes name.now) self.now ≡ Some (listed_of H.node T.said e.now)) }
    {
        for depth in 0..self.len() {
            match self.at(depth) {
                FormatEntry::Mark => return None,
                FormatEntry::Active(element) => {
                    if element.name.is(name) {
                        return Some(element);
                    }
                }
            }
        }
        None
    }

    // How many entries after the last marker are like an element.
    #[tactic(auto, unfolding(tree_construction::specs::Formatting::count_alike))]
    fn count_alike(&self, element: &Formatting<H, T, A>) -> usize
        ensures { result ≡ count_alike (listed_of H.node T.said element.now).name
            (listed_of H.node T.said element.now).attributes self.now }
    {
        let mut count = 0;
        for depth in 0..self.len() {
            match self.at(depth) {
                FormatEntry::Mark => return count,
                FormatEntry::Active(other) => {
                    if other.is_alike(element) {
                        count += 1;
                    }
                }
            }
        }
        count
    }

    // How deep the earliest entry stands that is like an element, of so many after the last marker.
    fn earliest_alike(&self, element: &Formatting<H, T, A>, total: usize) -> Option<usize>
        requires { total ≡ count_alike (listed_of H.node T.said element.now).name
            (listed_of H.node T.said element.now).attributes self.now }
        ensures { MatchOption result
            (without_earliest (listed_of H.node T.said element.now).name (listed_of H.node T.said element.now).attributes self.now ≡ self.now)
            (λ depth. IsEarliest (listed_of H.node T.said element.now).name (listed_of H.node T.said element.now).attributes self.now depth) }
    {
        let mut seen = 0;
        for depth in 0..self.len() {
            match self.at(depth) {
                FormatEntry::Mark => return None,
                FormatEntry::Active(other) => {
                    if !other.is_alike(element) {
                        continue;
                    }
                    if seen + 1 == total {
                        return Some(depth);
                    }
                    seen += 1;
                }
            }
        }
        None
    }

    // Where three entries after the last marker are like an element, the earliest is taken out.
    fn make_room(&mut self, element: &Formatting<H, T, A>)
        ensures { self.new ≡ with_room (listed_of H.node T.said element.now).name
            (listed_of H.node T.said element.now).attributes self.old }
    {
        let total = self.count_alike(element);
        if total < 3 {
            return;
        }
        if let Some(depth) = self.earliest_alike(element, total) {
            self.remove_at(depth);
        }
    }

    // How many elements stand after the last marker.
    #[tactic(auto, unfolding(tree_construction::specs::Formatting::count_after_marker))]
    fn count_after_marker(&self) -> usize
        ensures { result ≡ count_after_marker self.now }
    {
        for depth in 0..self.len() {
            if matches!(self.at(depth), FormatEntry::Mark) {
                return depth;
            }
        }
        self.len()
    }

    // Keeps the limit of elements after the last marker: the earliest leaves the list.
    fn keep_limit(&mut self, limit: Option<usize>)
        ensures { self.new ≡ within_limit limit self.old }
    {
        let Some(limit) = limit else {
            return;
        };
        let count = self.count_after_marker();
        if limit < count {
            self.remove_at(count - 1);
        }
    }

    /// "Push onto the list of active formatting elements", within a limit.
    #[tactic(auto, unfolding(tree_construction::specs::Formatting::with_entry))]
    pub fn push_formatting(
        &mut self,
        element: Formatting<H, T, A>,
        limit: Option<usize>,
    ) -> Result<(), AllocError>
        ensures ok { OnOk result (self.new ≡ within_limit limit (with_entry (listed_of H.node T.said element).node
            (listed_of H.node T.said element).kind (listed_of H.node T.said element).name
            (listed_of H.node T.said element).attributes self.old)) }
    {
        self.make_room(&element);
        self.push(FormatEntry::Active(element))?;
        self.keep_limit(limit);
        Ok(())
    }

    // Whether the last entry is of an element that is not open.
    fn last_is_lost(&self, opened: &OpenElements<H, A>) -> bool
        ensures { result ≡ is_lost opened.now self.now }
    {
        if self.len() == 0 {
            return false;
        }
        match self.at(0) {
            FormatEntry::Mark => false,
            FormatEntry::Active(element) => !opened.has(&Wanted::Node(element.handle)),
        }
    }

    // Takes the last entry, if it is of an element that is not open.
    #[tactic(auto, unfolding(tree_construction::specs::Formatting::to_reopen, tree_construction::specs::Formatting::still_listed))]
    fn pop_lost(&mut self, opened: &OpenElements<H, A>) -> Option<Formatting<H, T, A>>
        ensures lost { to_reopen opened.now self.old ≡ before_lost (option_map (listed_of H.node T.said) result) (to_reopen opened.now self.new) }
        ensures kept { still_listed opened.now self.new ≡ still_listed opened.now self.old }
        ensures none { IfNone result ((self.new ≡ self.old) × (to_reopen opened.now self.old ≡ []) × (still_listed opened.now self.old ≡ self.old)) }
        ensures some { IfSome result (λ e. self.old ≡ active_of (listed_of H.node T.said e) ∷ self.new) }
    {
        if !self.last_is_lost(opened) {
            return None;
        }
        match self.pop() {
            Some(FormatEntry::Active(element)) => Some(element),
            _ => unreachable!(),
        }
    }

    /// Takes the last entries up to a marker or an element that is open: "reconstruct the active formatting elements"
    /// opens them again, the earliest first.
    pub fn take_lost(
        &mut self,
        opened: &OpenElements<H, A>,
        alloc: A,
    ) -> Result<Stack<Formatting<H, T, A>, A>, AllocError>
        ensures list { OnOk result (self.new ≡ still_listed opened.now self.old) }
        ensures lost { IfOk result (λ lost. reverse (map (listed_of H.node T.said) lost) ≡ to_reopen opened.now self.old) }
    {
        let mut lost = Stack::new(alloc);
        while let Some(element) = self.pop_lost(opened) {
            lost.push(element)?;
        }
        Ok(lost)
    }

    /// The entry of a node.
    #[tactic(auto, unfolding(tree_construction::specs::Adoption::entry_of))]
    pub fn entry(&self, handle: H) -> Option<&Formatting<H, T, A>>
        ensures { MatchOption result (entry_in (H.node handle) self.now ≡ None)
            (λ e. entry_in (H.node handle) self.now ≡ Some (listed_of H.node T.said e.now)) }
    {
        for depth in 0..self.len() {
            if let FormatEntry::Active(element) = self.at(depth) {
                if element.handle.is(handle) {
                    return Some(element);
                }
            }
        }
        None
    }

    /// Makes the entry of a node that of another node, which was made for the same tag.
    pub fn renew(&mut self, handle: H, new: H) -> Result<(), AllocError>
        ensures { OnOk result (self.new ≡ renewed (entry_in (H.node handle) self.old) (H.node handle) (H.node new) self.old) }
    {
        let Some(depth) = self.find(handle) else {
            return Ok(());
        };
        match self.remove_at(depth) {
            FormatEntry::Mark => self.insert_at(depth, FormatEntry::Mark),
            FormatEntry::Active(element) => self.insert_at(
                depth,
                FormatEntry::Active(Formatting {
                    handle: new,
                    kind: element.kind,
                    name: element.name,
                    attributes: element.attributes,
                }),
            ),
        }
    }

    // Puts another element in the place of a node's entry.
    fn replace(&mut self, handle: H, element: Formatting<H, T, A>) -> Result<(), AllocError>
        ensures { OnOk result (self.new ≡ replaced (H.node handle) (active_of (listed_of H.node T.said element)) self.old) }
    {
        match self.find(handle) {
            Some(depth) => self.replace_at(depth, FormatEntry::Active(element)),
            None => Ok(()),
        }
    }

    // Puts an element after a node's entry.
    fn add_after(&mut self, handle: H, element: Formatting<H, T, A>) -> Result<(), AllocError>
        ensures { OnOk result (self.new ≡ added_after (H.node handle) (active_of (listed_of H.node T.said element)) self.old) }
    {
        match self.find(handle) {
            Some(depth) => self.insert_at(depth, FormatEntry::Active(element)),
            None => Ok(()),
        }
    }

    /// Puts the adopted element where the bookmark is.
    pub fn put_at_bookmark(
        &mut self,
        bookmark: Option<H>,
        handle: H,
        element: Formatting<H, T, A>,
    ) -> Result<(), AllocError>
        ensures { OnOk result (self.new ≡ at_bookmark (node_in H.node bookmark) (H.node handle)
            (active_of (listed_of H.node T.said element)) self.old) }
    {
        match bookmark {
            None => self.replace(handle, element),
            Some(after) => {
                self.remove(handle);
                self.add_after(after, element)
            }
        }
    }
}
