//! What is wrong with a rule.
ghost use Rattle.std.specs.Prelude.{◌≡◌, ◌||◌, codes, false, map, string_bytes};
ghost use Rattle.html5policy.specs.Rules.{attribute_fault, depth_fault, element_fault, fault_of, hidden_fault, rel_fault, scheme_fault, tree_fault};
ghost use Rattle.std.specs.List.{list_any};
ghost use Rattle.html5policy.specs.Names.{is_one_of};
ghost use Rattle.html5policy.specs.Policy.{implied_elements};
ghost use Rattle.html5policy.specs.Code.{policy_of, rule_of};

use crate::error::RuleError;
use crate::names::{
    acts_on_page, always_hides, has_place, have_places, is_never_kept, is_one_of, is_rel_word,
    is_scheme, runs_address,
};
use crate::rule::Rule;
use crate::rules::Rules;
use html5write::{is_attribute_name, is_tag_name};
use std::alloc::Allocator;

// What is wrong with an attribute that is to be kept.
fn attribute_fault(name: &str) -> Option<RuleError>
    ensures { result ≡ attribute_fault name.now }
{
    if !is_attribute_name(name) {
        return Some(RuleError::AttributeName);
    }
    if is_never_kept(name) {
        return Some(RuleError::NeverKept);
    }
    None
}

// What is wrong with an element that is to be kept, where these are hidden.
fn element_fault<A: Allocator>(tree: bool, hidden: &[String<A>], name: &str) -> Option<RuleError>
    ensures { result ≡ element_fault tree (map string_bytes hidden.now) name.now }
{
    if !is_tag_name(name) {
        return Some(RuleError::ElementName);
    }
    if always_hides(name) {
        return Some(RuleError::HidesContent);
    }
    if acts_on_page(name) {
        return Some(RuleError::ActsOnPage);
    }
    if is_one_of(hidden, name) {
        return Some(RuleError::AllowedAndHidden);
    }
    if tree && !has_place(name) {
        return Some(RuleError::NoPlace);
    }
    None
}

// Whether one of the elements that a browser makes in a table is hidden.
#[tactic(auto, unfolding(crate::specs::Policy::implied_elements))]
fn hides_implied<A: Allocator>(hidden: &[String<A>]) -> bool
    ensures { result ≡ list_any (is_one_of (map string_bytes hidden.now)) implied_elements }
{
    is_one_of(hidden, "colgroup")
        || is_one_of(hidden, "tbody")
        || is_one_of(hidden, "tr")
        || is_one_of(hidden, "td")
}

// What is wrong with the rule `tree`, where these are kept and those are hidden.
fn tree_fault<A: Allocator>(elements: &[String<A>], hidden: &[String<A>]) -> Option<RuleError>
    ensures { result ≡ tree_fault (map string_bytes elements.now) (map string_bytes hidden.now) }
{
    if !have_places(elements) {
        return Some(RuleError::NoPlace);
    }
    if hides_implied(hidden) {
        return Some(RuleError::AllowedAndHidden);
    }
    None
}

// What is wrong with how many elements may be open.
fn depth_fault(depth: usize) -> Option<RuleError>
    ensures { result ≡ depth_fault depth }
{
    if depth == 0 || depth > 4096 {
        return Some(RuleError::Depth);
    }
    None
}

// What is wrong with a scheme.
fn scheme_fault(scheme: &str) -> Option<RuleError>
    ensures { result ≡ scheme_fault scheme.now }
{
    if !is_scheme(scheme) {
        return Some(RuleError::SchemeName);
    }
    if runs_address(scheme) {
        return Some(RuleError::RunsAddress);
    }
    None
}

// What is wrong with a word of `rel`.
fn rel_fault(word: &str) -> Option<RuleError>
    ensures { result ≡ rel_fault word.now }
{
    if !is_rel_word(word) {
        return Some(RuleError::RelWord);
    }
    None
}

// What is wrong with an element that is to be hidden, where these are kept.
fn hidden_fault<A: Allocator>(elements: &[String<A>], name: &str) -> Option<RuleError>
    ensures { result ≡ hidden_fault (map string_bytes elements.now) name.now }
{
    if !is_tag_name(name) {
        return Some(RuleError::ElementName);
    }
    if is_one_of(elements, name) {
        return Some(RuleError::AllowedAndHidden);
    }
    None
}

/// What is wrong with a rule, by those that a policy has.
#[tactic(auto, unfolding(crate::specs::Rules::fault_of))]
pub fn fault_of<A: Allocator>(rules: &Rules<A>, rule: Rule<'_>) -> Option<RuleError>
    ensures { result ≡ fault_of (policy_of rules.now) (rule_of rule.entry) }
{
    match rule {
        Rule::Element(name) => element_fault(rules.tree, &rules.hidden, name),
        Rule::Attribute { element: _, name } => attribute_fault(name),
        Rule::Everywhere(name) => attribute_fault(name),
        Rule::Scheme(scheme) => scheme_fault(scheme),
        Rule::Hidden(name) => hidden_fault(&rules.elements, name),
        Rule::Rel(word) => rel_fault(word),
        Rule::Balance => None,
        Rule::Tree => tree_fault(&rules.elements, &rules.hidden),
        Rule::Depth(depth) => depth_fault(depth),
    }
}
