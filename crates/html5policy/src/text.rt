//! The text form of a policy.
ghost use Rattle.std.specs.Prelude.{◌≡◌, ◌<◌, ◌^◌, ◌⊎◌, IfErr, IfOk, IfSome, Ok, Err, OnOk, map};
ghost use Rattle.html5policy.specs.Rules.{IsSound};
ghost use Rattle.html5policy.specs.Code.{rule_of};
ghost use Rattle.html5policy.specs.Adding.{Adds, AddsLine, naming};
ghost use Rattle.html5policy.specs.Text.{allow_said, balance_said, begins_remark, depth_rule, depth_said, each_said, line_added, noopener_said, number_said, policy_said, rules_added, rules_by_word, said_added, tree_said, words};
ghost use Rattle.html5policy.specs.declared.error.RuleError.TheVariants.{Memory};

use crate::error::{PolicyError, RuleError};
use crate::policy::Policy;
use crate::rule::Rule;
use crate::words::next_word;
use std::alloc::Allocator;

/// What the names of a rule are.
#[derive(Clone, Copy, Debug, PartialEq, Eq)]
pub enum Naming<'t> {
    /// Attributes of an element of this name.
    AttributesOf(&'t str),
    Everywhere,
    Schemes,
    Hidden,
    Rel,
}

// The rule of one name.
fn rule_named<'t>(kind: Naming<'t>, name: &'t str) -> Rule<'t>
    ensures { rule_of result ≡ naming kind.entry name.now }
{
    match kind {
        Naming::AttributesOf(element) => Rule::Attribute { element, name },
        Naming::Everywhere => Rule::Everywhere(name),
        Naming::Schemes => Rule::Scheme(name),
        Naming::Hidden => Rule::Hidden(name),
        Naming::Rel => Rule::Rel(name),
    }
}

// Adds a rule for each name.
fn add_each<A: Allocator + Copy>(
    policy: &mut Policy<A>,
    kind: Naming<'_>,
    names: &str,
) -> Result<(), RuleError>
    ensures { Adds result (rules_added policy.old (map (naming kind.entry) (words names.now))) policy.new }
{
    let mut left = names;
    while let Some((name, rest)) = next_word(left) {
        policy.add(rule_named(kind, name))?;
        left = rest;
    }
    Ok(())
}

// Adds a rule for each name, of which there is one at least.
#[tactic(auto, unfolding(crate::specs::Text::each_said))]
fn add_some<A: Allocator + Copy>(
    policy: &mut Policy<A>,
    kind: Naming<'_>,
    names: &str,
) -> Result<(), RuleError>
    ensures { Adds result (said_added policy.old (each_said (naming kind.entry) (words names.now))) policy.new }
{
    match next_word(names) {
        Some(_) => add_each(policy, kind, names),
        None => Err(RuleError::NoName),
    }
}

// Adds the rules for an element after `allow`.
#[tactic(auto, unfolding(crate::specs::Text::allow_said, crate::specs::Text::rules_added))]
fn add_element<A: Allocator + Copy>(policy: &mut Policy<A>, names: &str) -> Result<(), RuleError>
    ensures { Adds result (said_added policy.old (allow_said (words names.now))) policy.new }
{
    match next_word(names) {
        Some((element, attributes)) => {
            policy.add(Rule::Element(element))?;
            add_each(policy, Naming::AttributesOf(element), attributes)
        }
        None => Err(RuleError::NoName),
    }
}

// Adds the rule for links.
#[tactic(auto, unfolding(crate::specs::Text::noopener_said, crate::specs::Text::rules_added))]
fn add_noopener<A: Allocator + Copy>(policy: &mut Policy<A>, names: &str) -> Result<(), RuleError>
    ensures { Adds result (said_added policy.old (noopener_said (words names.now))) policy.new }
{
    match next_word(names) {
        Some(_) => Err(RuleError::WordTooMany),
        None => policy.add(Rule::Rel("noopener")),
    }
}

// Adds the rule for end tags.
#[tactic(auto, unfolding(crate::specs::Text::balance_said, crate::specs::Text::rules_added))]
fn add_balance<A: Allocator + Copy>(policy: &mut Policy<A>, names: &str) -> Result<(), RuleError>
    ensures { Adds result (said_added policy.old (balance_said (words names.now))) policy.new }
{
    match next_word(names) {
        Some(_) => Err(RuleError::WordTooMany),
        None => policy.add(Rule::Balance),
    }
}

// Adds the rule `tree`.
#[tactic(auto, unfolding(crate::specs::Text::tree_said, crate::specs::Text::rules_added))]
fn add_tree<A: Allocator + Copy>(policy: &mut Policy<A>, names: &str) -> Result<(), RuleError>
    ensures { Adds result (said_added policy.old (tree_said (words names.now))) policy.new }
{
    match next_word(names) {
        Some(_) => Err(RuleError::WordTooMany),
        None => policy.add(Rule::Tree),
    }
}

/// A number in decimal digits: at least 1, and below 2 ^ 32. The rule `depth` takes not all of them.
#[tactic(auto, unfolding(crate::specs::Text::number_said))]
pub fn number_of(digits: &str) -> Option<usize>
    ensures { result ≡ number_said digits.now }
{
    if !digits.bytes().all(|byte| byte.is_ascii_digit()) {
        return None;
    }
    let Ok(number) = digits.parse::<u32>() else {
        return None;
    };
    if number == 0 {
        return None;
    }
    Some(number as usize)
}

// Adds how many elements may be open, by this number.
#[tactic(auto, unfolding(crate::specs::Text::rules_added))]
fn add_number<A: Allocator + Copy>(policy: &mut Policy<A>, number: &str) -> Result<(), RuleError>
    ensures { Adds result (said_added policy.old (depth_rule (number_said number.now))) policy.new }
{
    match number_of(number) {
        Some(depth) => policy.add(Rule::Depth(depth)),
        None => Err(RuleError::Depth),
    }
}

// Adds the rule for how many elements may be open.
#[tactic(auto, unfolding(crate::specs::Text::depth_said, crate::specs::Text::rules_added))]
fn add_depth<A: Allocator + Copy>(policy: &mut Policy<A>, names: &str) -> Result<(), RuleError>
    ensures { Adds result (said_added policy.old (depth_said (words names.now))) policy.new }
{
    let Some((number, rest)) = next_word(names) else {
        return Err(RuleError::NoName);
    };
    match next_word(rest) {
        Some(_) => Err(RuleError::WordTooMany),
        None => add_number(policy, number),
    }
}

// Whether a line with this first word says nothing.
fn begins_remark(word: &str) -> bool
    ensures { result ≡ begins_remark word.now }
{
    match word.as_bytes().split_first() {
        Some((first, _)) => *first == b'#',
        None => false,
    }
}

// Adds the rules that a line says after its first word.
#[tactic(auto, unfolding(crate::specs::Text::rules_by_word, crate::specs::Text::rules_added))]
fn add_rules<A: Allocator + Copy>(
    policy: &mut Policy<A>,
    word: &str,
    names: &str,
) -> Result<(), RuleError>
    ensures { Adds result (said_added policy.old (rules_by_word word.now (words names.now))) policy.new }
{
    if begins_remark(word) {
        return Ok(());
    }
    match word {
        "allow" => add_element(policy, names),
        "everywhere" => add_some(policy, Naming::Everywhere, names),
        "schemes" => add_some(policy, Naming::Schemes, names),
        "hide" => add_some(policy, Naming::Hidden, names),
        "rel" => add_some(policy, Naming::Rel, names),
        "noopener" => add_noopener(policy, names),
        "balance" => add_balance(policy, names),
        "tree" => add_tree(policy, names),
        "depth" => add_depth(policy, names),
        _ => Err(RuleError::UnknownRule),
    }
}

// Adds the rules of a line.
#[tactic(auto, unfolding(crate::specs::Text::line_added, crate::specs::Text::rules_said, crate::specs::Text::rules_added))]
fn add_line<A: Allocator + Copy>(policy: &mut Policy<A>, line: &str) -> Result<(), RuleError>
    ensures { Adds result (line_added policy.old line.now) policy.new }
{
    match next_word(line) {
        Some((word, names)) => add_rules(policy, word, names),
        None => Ok(()),
    }
}

// Adds those of the line of this number.
fn add_numbered<A: Allocator + Copy>(
    policy: &mut Policy<A>,
    number: u64,
    line: &str,
) -> Result<(), PolicyError>
    ensures { AddsLine result number (line_added policy.old line.now) policy.new }
{
    match add_line(policy, line) {
        Ok(()) => Ok(()),
        Err(fault) => Err(PolicyError {
            line: number,
            fault,
        }),
    }
}

impl<A: Allocator + Copy> Policy<A> {
    /// The policy that a text says: a rule a line, its words separated by spaces or tabs. `allow ELEMENT
    /// [ATTRIBUTE..]`, `everywhere ATTRIBUTE..`, `schemes SCHEME..`, `hide ELEMENT..`, `rel WORD..`, `noopener`,
    /// `balance`, `tree` and `depth NUMBER`. Empty lines, and lines that begin with `#`, say nothing.
    pub fn parse(alloc: A, text: &str) -> Result<Policy<A>, PolicyError>
        ensures said { IfOk result (λ policy. policy_said text.now ≡ Ok policy) }
        ensures fault { IfErr result (λ error. (error.fault ≡ Memory) ⊎ (policy_said text.now ≡ Err error)) }
        ensures sound { IfOk result (λ policy. IsSound policy) }
    {
        let mut policy = Policy::new(alloc);
        let mut left = text;
        let mut number = 1;
        while let Some((line, rest)) = left.split_once('\n') {
            add_numbered(&mut policy, number, line)?;
            left = rest;
            number += 1;
        }
        add_numbered(&mut policy, number, left)?;
        policy.soundness();
        Ok(policy)
    }
}
