//! What the calls of a policy make of what a handle is of.
ghost use Rattle.std.specs.Prelude.{◌≡◌, IfErr, IfOk, IsNone, None, Ok, Err};
ghost use Rattle.html5handle.specs.PolicyCalls.{AddRuleSays, AddsRule, BeginsCleaner, IsRefusal, SaidAdded, alone, bare, depth_said, rule_said};
ghost use Rattle.html5handle.specs.Slots.{cleaner_in, placed_in, policy_in, session_in};
ghost use Rattle.html5policy.specs.Code.{rule_of};

use crate::rule_status::rule_status;
use crate::slot::PageSlot;
use crate::status;
use html5cleaning::CleaningSession;
use html5entities::standard_references;
use html5policy::{Policy, Rule, number_of};
use std::alloc::Global;
use std::{mem, str};

// A rule that takes no attribute.
fn alone<'t>(attribute: &str, rule: Rule<'t>) -> Result<Rule<'t>, u32>
    ensures said { IfOk result (λ said. alone attribute.now (rule_of rule.entry) ≡ Ok (rule_of said)) }
    ensures refused { IfErr result (λ status. alone attribute.now (rule_of rule.entry) ≡ Err status) }
    ensures status { IfErr result (λ status. IsRefusal status) }
{
    if attribute.is_empty() {
        return Ok(rule);
    }
    Err(status::WORD_TOO_MANY)
}

// A rule that takes no name.
fn bare<'t>(name: &str, attribute: &str, rule: Rule<'t>) -> Result<Rule<'t>, u32>
    ensures said { IfOk result (λ said. bare name.now attribute.now (rule_of rule.entry) ≡ Ok (rule_of said)) }
    ensures refused { IfErr result (λ status. bare name.now attribute.now (rule_of rule.entry) ≡ Err status) }
    ensures status { IfErr result (λ status. IsRefusal status) }
{
    if !name.is_empty() {
        return Err(status::WORD_TOO_MANY);
    }
    alone(attribute, rule)
}

// The rule of how many elements may be open.
fn depth_rule<'t>(number: &'t str, attribute: &str) -> Result<Rule<'t>, u32>
    ensures said { IfOk result (λ said. depth_said number.now attribute.now ≡ Ok (rule_of said)) }
    ensures refused { IfErr result (λ status. depth_said number.now attribute.now ≡ Err status) }
    ensures status { IfErr result (λ status. IsRefusal status) }
{
    match number_of(number) {
        Some(depth) => alone(attribute, Rule::Depth(depth)),
        None => Err(status::BAD_DEPTH),
    }
}

// The rule that a number and names say.
#[tactic(auto, unfolding(crate::specs::PolicyCalls::rule_said))]
fn rule_said<'t>(rule: u32, name: &'t str, attribute: &'t str) -> Result<Rule<'t>, u32>
    ensures said { IfOk result (λ said. rule_said rule name.now attribute.now ≡ Ok (rule_of said)) }
    ensures refused { IfErr result (λ status. rule_said rule name.now attribute.now ≡ Err status) }
    ensures status { IfErr result (λ status. IsRefusal status) }
{
    match rule {
        0 => alone(attribute, Rule::Element(name)),
        1 => Ok(Rule::Attribute {
            element: name,
            name: attribute,
        }),
        2 => alone(attribute, Rule::Everywhere(name)),
        3 => alone(attribute, Rule::Scheme(name)),
        4 => alone(attribute, Rule::Hidden(name)),
        5 => alone(attribute, Rule::Rel(name)),
        6 => bare(name, attribute, Rule::Balance),
        7 => bare(name, attribute, Rule::Tree),
        8 => depth_rule(name, attribute),
        _ => Err(status::BAD_OPTION),
    }
}

// Adds the rule that a number and names say.
fn add_said(policy: &mut Policy<Global>, rule: u32, name: &str, attribute: &str) -> u32
    ensures { SaidAdded policy.old policy.new rule name.now attribute.now result }
{
    match rule_said(rule, name, attribute) {
        Ok(rule) => match policy.add(rule) {
            Ok(()) => status::DONE,
            Err(fault) => rule_status(fault),
        },
        Err(status) => status,
    }
}

// Adds it, where the names are UTF-8.
fn add_rule(policy: &mut Policy<Global>, rule: u32, name: &[u8], attribute: &[u8]) -> u32
    ensures { AddRuleSays policy.old policy.new rule name.now attribute.now result }
{
    let Ok(name) = str::from_utf8(name) else {
        return status::NOT_UTF8;
    };
    let Ok(attribute) = str::from_utf8(attribute) else {
        return status::NOT_UTF8;
    };
    add_said(policy, rule, name, attribute)
}

impl PageSlot {
    // The policy, if it is one: then it is lent out.
    fn take_policy(&mut self) -> Option<Policy<Global>>
        ensures policy { result ≡ policy_in self.old }
        ensures none { IsNone result → self.new ≡ self.old }
    {
        match mem::replace(self, PageSlot::Lent) {
            PageSlot::Policy(policy) => Some(policy),
            other => {
                *self = other;
                None
            }
        }
    }

    /// Adds a rule.
    pub fn add_rule(&mut self, rule: u32, name: &[u8], attribute: &[u8]) -> u32
        ensures adds { AddsRule (policy_in self.old) (policy_in self.new) rule name.now attribute.now result }
        ensures session { session_in self.new ≡ session_in self.old }
        ensures other { cleaner_in self.new ≡ cleaner_in self.old }
        ensures placed { placed_in self.new ≡ placed_in self.old }
    {
        match self {
            PageSlot::Policy(policy) => add_rule(policy, rule, name, attribute),
            _ => status::CLOSED,
        }
    }

    /// Begins a page that is cleaned by the policy.
    pub fn begin_cleaner(&mut self, alloc: Global) -> u32
        ensures begins { BeginsCleaner (policy_in self.old) (policy_in self.new) (cleaner_in self.new) result }
        ensures unchanged { policy_in self.old ≡ None → self.new ≡ self.old }
    {
        let Some(policy) = self.take_policy() else {
            return status::CLOSED;
        };
        let Ok(references) = standard_references(alloc) else {
            *self = PageSlot::Policy(policy);
            return status::NO_MEMORY;
        };
        *self = PageSlot::Cleaner(CleaningSession::new(alloc, references, policy));
        status::DONE
    }
}
