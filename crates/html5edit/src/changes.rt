//! What is changed of the tags of a page.
ghost use Rattle.std.specs.Prelude.{◌≡◌, ◌++◌, ◌∷◌, [], None, Some, IfErr, IfOk, OnErr, OnOk, map, option_map, string_bytes};
ghost use Rattle.html5edit.specs.Asked.{changes_said, drop_said, no_changes, said_after, with_rule};
ghost use Rattle.html5edit.specs.Changes.{is_among, is_dropped};
ghost use Rattle.html5edit.specs.Rules.{rule_by};
ghost use Rattle.html5programs.specs.Words.{asked_by, given_of};

use crate::rule::{AttributeRule, remove_rule, set_rule};
use html5programs::{GivenOption, Words};
use html5serialize::is_tag_name;
use std::alloc::{AllocError, Global};
use std::marker::Model;
use thiserror::Error;

/// Why words say no changes.
#[derive(Clone, Copy, Debug, PartialEq, Eq, Error)]
pub enum ChangeError {
    #[error("--set takes ELEMENT.ATTRIBUTE=VALUE, with names in lower case")]
    NoSetting,
    #[error("--remove takes ELEMENT.ATTRIBUTE, with names in lower case")]
    NoAttribute,
    #[error("--drop takes the name of an element, in lower case")]
    NoElement,
    #[error("out of memory")]
    Memory,
}

impl From<AllocError> for ChangeError {
    ghost use Rattle.std.specs.Prelude.{◌≡◌};
    ghost use Rattle.html5edit.specs.declared.changes.ChangeError.TheVariants.{Memory};

    ghost from_gives = { λ _ error. error ≡ Memory };

    fn from(_error: AllocError) -> ChangeError {
        ChangeError::Memory
    }
}

/// What is changed of the tags of a page.
#[derive(Drop)]
pub struct Changes {
    rules: Vec<AttributeRule>,
    dropped: Vec<String>,
    noopener: bool,
}

impl Model for Changes {
    ghost use Rattle.std.specs.Prelude.{map, string_bytes};
    ghost use Rattle.html5edit.specs.Changes.{Changes as ChangesOf};
    ghost use Rattle.html5edit.specs.Rules.{rule_by};

    ghost Value = { ChangesOf };

    ghost view = { λ c. record { rules = map rule_by c.rules.items; dropped = map string_bytes c.dropped.items; noopener = c.noopener } };
}

// Whether one of these names is that of an element.
#[tactic(auto, unfolding(crate::specs::Changes::is_among))]
fn is_among(name: &str, names: &[String]) -> bool
    ensures { result ≡ is_among name.now (map string_bytes names.now) }
{
    for other in names {
        if other.as_str() == name {
            return true;
        }
    }
    false
}

impl Changes {
    /// None.
    pub fn none(alloc: Global) -> Changes
        ensures { result ≡ no_changes }
    {
        Changes {
            rules: Vec::new(alloc),
            dropped: Vec::new(alloc),
            noopener: false,
        }
    }

    /// The rules for attributes, in order.
    pub fn rules(&self) -> &[AttributeRule]
        ensures { map rule_by result.now ≡ self.now.rules }
    {
        &self.rules
    }

    /// Whether elements of this name are dropped with their content.
    pub fn drops(&self, name: &str) -> bool
        ensures { result ≡ is_dropped self.now name.now }
    {
        is_among(name, &self.dropped)
    }

    /// Whether links and forms that have a target get `noopener`.
    pub fn noopener(&self) -> bool
        ensures { result ≡ self.now.noopener }
    {
        self.noopener
    }

    // One rule more.
    fn push_rule(&mut self, rule: AttributeRule) -> Result<(), ChangeError>
        ensures { OnOk result (self.new ≡ with_rule self.old (rule_by rule)) }
    {
        match self.rules.push(rule) {
            Ok(()) => Ok(()),
            Err(_) => Err(ChangeError::Memory),
        }
    }

    // One rule more, where a word says one.
    fn take_rule(
        &mut self,
        rule: Option<AttributeRule>,
        missing: ChangeError,
    ) -> Result<(), ChangeError>
        ensures { OnOk result (option_map (with_rule self.old) (option_map rule_by rule) ≡ Some self.new) }
    {
        match rule {
            Some(rule) => self.push_rule(rule),
            None => Err(missing),
        }
    }

    // Takes the name of an element that is dropped.
    fn take_dropped(&mut self, alloc: Global, name: &str) -> Result<(), ChangeError>
        ensures { OnOk result (drop_said self.old name.now ≡ Some self.new) }
    {
        if !is_tag_name(name) {
            return Err(ChangeError::NoElement);
        }
        match self.dropped.push(String::from_str(alloc, name)?) {
            Ok(()) => Ok(()),
            Err(_) => Err(ChangeError::Memory),
        }
    }

    // Takes an option.
    fn take_option(&mut self, alloc: Global, given: &GivenOption<'_>) -> Result<(), ChangeError>
        ensures { OnOk result (said_after (given_of given.now) self.old ≡ Some self.new) }
    {
        match given.name {
            "--set" => {
                let rule = set_rule(alloc, given.value)?;
                self.take_rule(rule, ChangeError::NoSetting)
            }
            "--remove" => {
                let rule = remove_rule(alloc, given.value)?;
                self.take_rule(rule, ChangeError::NoAttribute)
            }
            "--drop" => self.take_dropped(alloc, given.value),
            "--noopener" => {
                self.noopener = true;
                Ok(())
            }
            _ => Ok(()),
        }
    }

    /// Those that words ask for.
    pub fn of_words(alloc: Global, words: &Words<'_>) -> Result<Changes, ChangeError>
        ensures { IfOk result (λ changes. changes_said (asked_by words.now).given ≡ Some changes) }
    {
        let mut changes = Changes::none(alloc);
        let count = words.given.len();
        for later in 0..count {
            changes.take_option(alloc, &words.given[count - 1 - later])?;
        }
        Ok(changes)
    }
}
