//! A policy: what it keeps of a page.
ghost use Rattle.std.specs.Prelude.{◌≡◌, ◌⊎◌, IfErr, IfOk, Ok, Err, OnErr, OnOk, codes};
ghost use Rattle.html5policy.specs.Policy.{hides, is_allowed, is_kept, is_named, is_rel_of_link, nothing_kept, refuses_address};
ghost use Rattle.html5policy.specs.Rules.{IsSound, rule_added};
ghost use Rattle.html5policy.specs.Code.{rule_of};
ghost use Rattle.html5policy.specs.declared.error.RuleError.{RuleError};
ghost use Rattle.html5policy.specs.declared.error.RuleError.TheVariants.{Memory};

use crate::addresses::is_safe_address;
use crate::error::RuleError;
use crate::faults::fault_of;
use crate::names::{always_hides, is_address, is_one_of, is_one_of_by_guess};
use crate::rule::Rule;
use crate::rules::{Rules, is_own};
use std::alloc::{Allocator, Global};
use std::marker::Model;

/// What a policy keeps of a page: the elements, each with its attributes, the attributes of each element, and the
/// schemes of addresses. It also says which further elements are dropped with their content. No rule of it lets a page
/// run anything, or be read otherwise than it was written.
#[derive(Drop)]
pub struct Policy<A: Allocator = Global> {
    alloc: A,
    rules: Rules<A>,
}

impl<A: Allocator> Model for Policy<A> {
    ghost use Rattle.html5policy.specs.Policy.{PolicyOf};
    ghost use Rattle.html5policy.specs.Rules.{IsSound};

    ghost Value = { PolicyOf };

    ghost use Rattle.html5policy.specs.Code.{policy_of};
    ghost use Rattle.html5policy.specs.Marks.{AllMarked};

    ghost view = { λ p. policy_of p.rules };

    ghost invariant = { λ p. IsSound (policy_of p.rules) × AllMarked p.rules.marks (policy_of p.rules) };
}

impl<A: Allocator + Copy> Policy<A> {
    /// A policy that keeps text alone.
    pub fn new(alloc: A) -> Policy<A>
        ensures nothing { result ≡ nothing_kept }
        ensures sound { IsSound result }
    {
        Policy {
            alloc,
            rules: Rules::none(alloc),
        }
    }

    /// Takes a rule after those that it has, if nothing is wrong with it.
    #[tactic(auto, unfolding(crate::specs::Rules::rule_added))]
    pub fn add(&mut self, rule: Rule<'_>) -> Result<(), RuleError>
        ensures added { OnOk result (rule_added self.old (rule_of rule.entry) ≡ Ok self.new) }
        ensures fault { IfErr result (λ fault. (fault ≡ Memory) ⊎ (rule_added self.old (rule_of rule.entry) ≡ Err fault)) }
        ensures refused { (fault : RuleError) → rule_added self.old (rule_of rule.entry) ≡ Err fault → result ≡ Err fault }
        ensures unchanged { OnErr result (self.new ≡ self.old) }
        ensures sound { IsSound self.new }
    {
        if let Some(fault) = fault_of(&self.rules, rule) {
            return Err(fault);
        }
        self.rules.push(self.alloc, rule)?;
        Ok(())
    }
}

impl<A: Allocator> Policy<A> {
    /// Whether an element of this name is kept.
    #[tactic(auto, unfolding(crate::specs::Policy::is_allowed))]
    pub fn is_allowed(&self, name: &str) -> bool
        ensures { result ≡ is_allowed self.now name.now }
    {
        let guess = self.rules.guesses.place_of(name);
        is_one_of_by_guess(&self.rules.elements, guess, name)
    }

    /// Whether an element of this name is dropped with its content.
    #[tactic(auto, unfolding(crate::specs::Policy::hides))]
    pub fn hides(&self, name: &str) -> bool
        ensures { result ≡ hides self.now name.now }
    {
        always_hides(name) || is_one_of(&self.rules.hidden, name)
    }

    /// Whether it is the `rel` of a link, for which this policy has a value of its own.
    pub fn is_rel_of_link(&self, element: &str, attribute: &str) -> bool
        ensures { result ≡ is_rel_of_link self.now element.now attribute.now }
    {
        !self.rules.rel.is_empty() && element == "a" && attribute == "rel"
    }

    /// The value of `rel` that links get: the words of its rules, with spaces between. It is empty where they get none.
    pub fn rel(&self) -> &str
        ensures { result.now ≡ self.now.rel }
    {
        &self.rules.rel
    }

    /// Whether a page that it keeps is balanced: each end tag closes the innermost open element, and at
    /// the end none is open.
    pub fn balances(&self) -> bool
        ensures { result ≡ self.now.balance }
    {
        self.rules.balance
    }

    /// Whether a page that it keeps is made to fit, so that a browser builds it with the same nesting.
    pub fn makes_tree(&self) -> bool
        ensures { result ≡ self.now.tree }
    {
        self.rules.tree
    }

    /// How many elements may be open then.
    pub fn depth(&self) -> usize
        ensures { result ≡ self.now.depth }
    {
        self.rules.depth
    }

    // Whether an attribute of this name is kept in elements of that name.
    fn is_named(&self, element: &str, attribute: &str) -> bool
        ensures { result ≡ is_named self.now element.now attribute.now }
    {
        // Most attributes of pages are not.
        if !self.rules.marks.may_have(attribute) {
            return false;
        }
        is_one_of(&self.rules.everywhere, attribute) || is_own(&self.rules.own, element, attribute)
    }

    /// Whether an attribute of this name and value is kept in an element of that name.
    #[tactic(auto, unfolding(crate::specs::Policy::is_kept))]
    pub fn is_kept(&self, element: &str, attribute: &str, value: &str) -> bool
        ensures { result ≡ is_kept self.now element.now attribute.now value.now }
    {
        self.is_named(element, attribute)
            && !self.is_rel_of_link(element, attribute)
            && (!is_address(attribute) || is_safe_address(&self.rules.schemes, value.as_bytes()))
    }

    /// Whether an attribute of this name is kept in elements of that name, but not with this address.
    pub fn refuses_address(&self, element: &str, attribute: &str, address: &str) -> bool
        ensures { result ≡ refuses_address self.now element.now attribute.now address.now }
    {
        self.is_named(element, attribute)
            && !is_safe_address(&self.rules.schemes, address.as_bytes())
    }

    /// Each policy is sound. It does nothing at run time.
    pub fn soundness(&self)
        ensures { IsSound self.now }
    {
        let _ = &self.rules;
    }
}
