//! The rules of a policy, as they are stored.
ghost use Rattle.std.specs.Prelude.{◌≡◌, ◌<◌, ◌+◌, ◌≤◌, ◌++◌, ◌∷◌, [], IfOk, OnOk, OnErr, map, string_bytes, vec_capacity, vec_len};
ghost use Rattle.html5policy.specs.Policy.{implied_elements, is_own, nothing_kept, with_word};
ghost use Rattle.html5policy.specs.Marks.{AllMarked};
ghost use Rattle.html5policy.specs.Rules.{with_rule};
ghost use Rattle.html5policy.specs.Code.{own_of, policy_of, rule_of};

use crate::guesses::Guesses;
use crate::marks::Marks;
use crate::rule::Rule;
use std::alloc::{AllocError, Allocator};

// How many elements may be open if no rule says it.
const STANDARD_DEPTH: usize = 256;

/// An attribute that is kept in elements of that name.
#[derive(Drop)]
pub struct OwnAttribute<A: Allocator> {
    pub element: String<A>,
    pub attribute: String<A>,
}

/// The rules of a policy, each kind in the order in which they were given.
#[derive(Drop)]
pub struct Rules<A: Allocator> {
    pub elements: Vec<String<A>, A>,
    /// Where the name of an element may stand among these.
    pub guesses: Guesses,
    /// Marks of the attributes that the next two name.
    pub marks: Marks,
    pub own: Vec<OwnAttribute<A>, A>,
    pub everywhere: Vec<String<A>, A>,
    pub schemes: Vec<String<A>, A>,
    pub hidden: Vec<String<A>, A>,
    /// The value of `rel` that links get, or nothing.
    pub rel: String<A>,
    pub balance: bool,
    pub tree: bool,
    pub depth: usize,
}

// Appends a name.
fn push_name<A: Allocator + Copy>(
    alloc: A,
    names: &mut Vec<String<A>, A>,
    name: &str,
) -> Result<(), AllocError>
    ensures ok { OnOk result (map string_bytes names.new.items ≡ map string_bytes names.old.items ++ name.now ∷ []) }
    ensures err { OnErr result (names.new.items ≡ names.old.items) }
{
    let name = String::from_str(alloc, name)?;
    names.push(name)?;
    Ok(())
}

// Appends a name if there is room for it.
fn push_within<A: Allocator>(names: &mut Vec<String<A>, A>, name: String<A>)
    requires { vec_len names.old < vec_capacity names.old }
    ensures items { names.new.items ≡ names.old.items ++ name ∷ [] }
    ensures len { vec_len names.new ≡ vec_len names.old + 1 }
    ensures capacity { vec_capacity names.old ≤ vec_capacity names.new }
{
    match names.push(name) {
        Ok(()) => {}
        Err(_) => unreachable!(),
    }
}

// Appends the elements that a browser makes in a table, all of them or none.
#[tactic(auto, unfolding(crate::specs::Policy::implied_elements))]
fn push_implied<A: Allocator + Copy>(
    alloc: A,
    names: &mut Vec<String<A>, A>,
) -> Result<(), AllocError>
    ensures ok { OnOk result (map string_bytes names.new.items ≡ map string_bytes names.old.items ++ implied_elements) }
    ensures err { OnErr result (names.new.items ≡ names.old.items) }
{
    let group = String::from_str(alloc, "colgroup")?;
    let body = String::from_str(alloc, "tbody")?;
    let row = String::from_str(alloc, "tr")?;
    let cell = String::from_str(alloc, "td")?;
    names.reserve(4)?;
    push_within(names, group);
    push_within(names, body);
    push_within(names, row);
    push_within(names, cell);
    Ok(())
}

// Appends an attribute of an element.
fn push_own<A: Allocator + Copy>(
    alloc: A,
    own: &mut Vec<OwnAttribute<A>, A>,
    element: &str,
    attribute: &str,
) -> Result<(), AllocError>
    ensures ok { OnOk result (map own_of own.new.items
        ≡ map own_of own.old.items ++ record { element = element.now; attribute = attribute.now } ∷ []) }
    ensures err { OnErr result (own.new.items ≡ own.old.items) }
{
    let element = String::from_str(alloc, element)?;
    let attribute = String::from_str(alloc, attribute)?;
    own.push(OwnAttribute { element, attribute })?;
    Ok(())
}

// A value of `rel` with one word more.
#[tactic(auto, unfolding(crate::specs::Policy::with_word))]
fn with_word<A: Allocator + Copy>(alloc: A, rel: &str, word: &str) -> Result<String<A>, AllocError>
    ensures { IfOk result (λ longer. string_bytes longer ≡ with_word rel.now word.now) }
{
    if rel.is_empty() {
        return String::from_str(alloc, word);
    }
    let mut longer = String::from_str(alloc, rel)?;
    longer.push(' ')?;
    longer.push_str(word)?;
    Ok(longer)
}

/// Whether an attribute of this name is among those of an element of that name.
#[tactic(auto, unfolding(crate::specs::Policy::is_own))]
pub fn is_own<A: Allocator>(attributes: &[OwnAttribute<A>], element: &str, attribute: &str) -> bool
    ensures { result ≡ is_own (map own_of attributes.now) element.now attribute.now }
{
    for own in attributes {
        if own.attribute.as_str() == attribute && own.element.as_str() == element {
            return true;
        }
    }
    false
}

impl<A: Allocator + Copy> Rules<A> {
    /// No rule.
    pub fn none(alloc: A) -> Rules<A>
        ensures nothing { policy_of result ≡ nothing_kept }
        ensures marked { AllMarked result.marks (policy_of result) }
    {
        Rules {
            elements: Vec::new(alloc),
            guesses: Guesses::none(),
            marks: Marks::none(),
            own: Vec::new(alloc),
            everywhere: Vec::new(alloc),
            schemes: Vec::new(alloc),
            hidden: Vec::new(alloc),
            rel: String::new(alloc),
            balance: false,
            tree: false,
            depth: STANDARD_DEPTH,
        }
    }

    /// Appends a rule.
    #[tactic(auto, unfolding(crate::specs::Rules::with_rule))]
    pub fn push(&mut self, alloc: A, rule: Rule<'_>) -> Result<(), AllocError>
        ensures ok { OnOk result (policy_of self.new ≡ with_rule (policy_of self.old) (rule_of rule.entry)) }
        ensures err { OnErr result (policy_of self.new ≡ policy_of self.old) }
        ensures marked { AllMarked self.old.marks (policy_of self.old) → AllMarked self.new.marks (policy_of self.new) }
    {
        match rule {
            Rule::Element(name) => {
                self.guesses.note(name, self.elements.len());
                push_name(alloc, &mut self.elements, name)
            }
            Rule::Attribute { element, name } => {
                self.marks.note(name);
                push_own(alloc, &mut self.own, element, name)
            }
            Rule::Everywhere(name) => {
                self.marks.note(name);
                push_name(alloc, &mut self.everywhere, name)
            }
            Rule::Scheme(scheme) => push_name(alloc, &mut self.schemes, scheme),
            Rule::Hidden(name) => push_name(alloc, &mut self.hidden, name),
            Rule::Rel(word) => {
                self.rel = with_word(alloc, &self.rel, word)?;
                Ok(())
            }
            Rule::Balance => {
                self.balance = true;
                Ok(())
            }
            Rule::Tree => {
                push_implied(alloc, &mut self.elements)?;
                self.tree = true;
                Ok(())
            }
            Rule::Depth(depth) => {
                self.depth = depth;
                Ok(())
            }
        }
    }
}
