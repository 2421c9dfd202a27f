//! Rules for attributes, as words say them.
ghost use Rattle.std.specs.Prelude.{◌≡◌, ℕ, List, None, Some, IfOk, IfErr, MatchOption, option_map, string_bytes};
ghost use Rattle.html5edit.specs.Asked.{are_names, is_dot, remove_said, rule_of_names, rule_of_place, set_said};
ghost use Rattle.html5edit.specs.Rules.{rule_by};
ghost use Rattle.html5table.specs.Listed.{is_equals_sign, parts_round};

use html5serialize::{is_attribute_name, is_tag_name};
use std::alloc::{AllocError, Global};

/// An attribute of each element of a name.
#[derive(Drop)]
pub struct AttributeRule {
    pub element: String,
    pub attribute: String,
    /// What it is set to, or `None` if it is removed.
    pub value: Option<String>,
}

// The parts round the first `=`.
fn round_equals_sign(word: &str) -> Option<(&str, &str)>
    ensures { option_map (λ parts. (parts.0.now, parts.1.now)) result ≡ parts_round is_equals_sign word.now }
{
    word.split_once('=')
}

// The parts round the first dot.
fn round_dot(place: &str) -> Option<(&str, &str)>
    ensures { option_map (λ parts. (parts.0.now, parts.1.now)) result ≡ parts_round is_dot place.now }
{
    place.split_once('.')
}

// A copy of a value, if there is one.
fn copied(alloc: Global, value: Option<&str>) -> Result<Option<String>, AllocError>
    ensures { IfOk result (λ copy. option_map string_bytes copy ≡ option_map (λ v. v.now) value.entry) }
{
    match value {
        Some(value) => Ok(Some(String::from_str(alloc, value)?)),
        None => Ok(None),
    }
}

// Whether tags are read with these names.
fn are_names(element: &str, attribute: &str) -> bool
    ensures { result ≡ are_names (element.now, attribute.now) }
{
    is_tag_name(element) && is_attribute_name(attribute)
}

// A rule for an attribute, where tags are read with these names.
fn rule_of_names(
    alloc: Global,
    element: &str,
    attribute: &str,
    value: Option<&str>,
) -> Result<Option<AttributeRule>, AllocError>
    ensures { IfOk result (λ rule. option_map rule_by rule
        ≡ rule_of_names (option_map (λ v. v.now) value.entry) (element.now, attribute.now)) }
{
    if !are_names(element, attribute) {
        return Ok(None);
    }
    Ok(Some(AttributeRule {
        element: String::from_str(alloc, element)?,
        attribute: String::from_str(alloc, attribute)?,
        value: copied(alloc, value)?,
    }))
}

// A rule for the attribute that is named `ELEMENT.ATTRIBUTE`.
fn rule_of_place(
    alloc: Global,
    place: &str,
    value: Option<&str>,
) -> Result<Option<AttributeRule>, AllocError>
    ensures { IfOk result (λ rule. option_map rule_by rule ≡ rule_of_place (option_map (λ v. v.now) value.entry) place.now) }
{
    match round_dot(place) {
        Some((element, attribute)) => rule_of_names(alloc, element, attribute, value),
        None => Ok(None),
    }
}

/// The rule of `ELEMENT.ATTRIBUTE=VALUE`, if a word is that.
pub fn set_rule(alloc: Global, word: &str) -> Result<Option<AttributeRule>, AllocError>
    ensures { IfOk result (λ rule. option_map rule_by rule ≡ set_said word.now) }
{
    match round_equals_sign(word) {
        Some((place, value)) => rule_of_place(alloc, place, Some(value)),
        None => Ok(None),
    }
}

/// The rule of `ELEMENT.ATTRIBUTE`, if a word is that: the attribute is removed.
pub fn remove_rule(alloc: Global, word: &str) -> Result<Option<AttributeRule>, AllocError>
    ensures { IfOk result (λ rule. option_map rule_by rule ≡ remove_said word.now) }
{
    rule_of_place(alloc, word, None)
}
