//! Tags as they are changed.
ghost use Rattle.std.specs.Prelude.{◌≡◌, None, OnOk, Some, IfOk, map, option_map, string_bytes};
ghost use Rattle.html5ever_interface.specs.Token.{tag_of};
ghost use Rattle.html5edit.specs.Changes.{absolute, as_written, by_rule, by_rules, changed_start, changed_tag, closed_to_opener, has_value, opens_window, where_asked, with_address, with_link, with_noopener, with_url, with_value};
ghost use Rattle.html5edit.specs.Rules.{changed_by, rule_by};
ghost use Rattle.html5rewrite.specs.Edits.{value_of};
ghost use Rattle.markup5ever.specs.Names.{attribute_of};

use crate::changes::Changes;
use crate::noopener::has_noopener;
use crate::rule::AttributeRule;
use html5ever_interface::interface::token::{Tag, TagKind};
use html5extract::bases::Bases;
use html5extract::links::link_attribute;
use html5rewrite::{drop_attribute, set_attribute, value_of};
use std::alloc::{AllocError, Global};
use url::Url;

/// A tag, and whether it was changed.
#[derive(Drop)]
pub struct ChangedTag {
    pub tag: Tag,
    pub is_changed: bool,
}

impl ChangedTag {
    // An unchanged tag.
    fn as_written(tag: Tag) -> ChangedTag
        ensures { changed_by result ≡ as_written (tag_of tag) }
    {
        ChangedTag {
            tag,
            is_changed: false,
        }
    }

    // The value of an attribute, if there is one.
    fn value(&self, attribute: &str) -> Option<&str>
        ensures { option_map (λ value. value.now) result
            ≡ value_of attribute.now (map attribute_of self.now.tag.attrs.items) }
    {
        match value_of(&self.tag.attrs, attribute) {
            Some(value) => Some(value.as_str()),
            None => None,
        }
    }

    // Whether an attribute has this value.
    fn has_value(&self, attribute: &str, value: &str) -> bool
        ensures { result ≡ has_value (value_of attribute.now (map attribute_of self.now.tag.attrs.items)) value.now }
    {
        match self.value(attribute) {
            Some(now) => now == value,
            None => false,
        }
    }

    // Sets an attribute, if it has another value or none.
    fn set(&mut self, alloc: Global, attribute: &str, value: &str) -> Result<(), AllocError>
        ensures { OnOk result (changed_by self.new ≡ with_value attribute.now (Some value.now) (changed_by self.old)) }
    {
        if self.has_value(attribute, value) {
            return Ok(());
        }
        let value = String::from_str(alloc, value)?;
        set_attribute(alloc, &mut self.tag, attribute, value)?;
        self.is_changed = true;
        Ok(())
    }

    // Removes an attribute, if there is one.
    fn remove(&mut self, attribute: &str)
        ensures { changed_by self.new ≡ with_value attribute.now None (changed_by self.old) }
    {
        if self.value(attribute).is_some() {
            drop_attribute(&mut self.tag, attribute);
            self.is_changed = true;
        }
    }

    // Changes what a rule says of elements of this name.
    fn apply(&mut self, alloc: Global, rule: &AttributeRule) -> Result<(), AllocError>
        ensures { OnOk result (changed_by self.new ≡ by_rule (changed_by self.old) (rule_by rule.now)) }
    {
        if self.tag.name.0.as_str() != rule.element.as_str() {
            return Ok(());
        }
        match &rule.value {
            Some(value) => self.set(alloc, &rule.attribute, value),
            None => {
                self.remove(&rule.attribute);
                Ok(())
            }
        }
    }

    // Changes what rules say, one after the other.
    #[tactic(auto, unfolding(crate::specs::Changes::by_rules))]
    fn apply_all(&mut self, alloc: Global, rules: &[AttributeRule]) -> Result<(), AllocError>
        ensures { OnOk result (changed_by self.new ≡ by_rules (changed_by self.old) (map rule_by rules.now)) }
    {
        for rule in rules {
            self.apply(alloc, rule)?;
        }
        Ok(())
    }

    // Whether it is a link or a form that has a target.
    fn opens_window(&self) -> bool
        ensures { result ≡ opens_window (tag_of self.now.tag) }
    {
        matches!(self.tag.name.0.as_str(), "a" | "area" | "form") && self.value("target").is_some()
    }

    // If it is one, its `rel` has `noopener`.
    fn close_to_opener(&mut self, alloc: Global) -> Result<(), AllocError>
        ensures { OnOk result (changed_by self.new ≡ closed_to_opener (changed_by self.old)) }
    {
        if !self.opens_window() {
            return Ok(());
        }
        let words = with_noopener(alloc, self.value("rel"))?;
        self.set(alloc, "rel", &words)
    }

    // The URL to which an attribute leads, if it does.
    fn url_of(&self, bases: &Bases, attribute: &str) -> Result<Option<Url>, AllocError>
        ensures { IfOk result (λ url. with_address bases.now attribute.now (value_of attribute.now (map attribute_of self.now.tag.attrs.items)) (changed_by self.now)
            ≡ with_url attribute.now url (changed_by self.now)) }
    {
        match self.value(attribute) {
            Some("") | None => Ok(None),
            Some(address) => bases.url_of(address),
        }
    }

    // The address of a link becomes the URL to which it leads.
    fn make_absolute(&mut self, alloc: Global, bases: &Bases) -> Result<(), AllocError>
        ensures { OnOk result (changed_by self.new ≡ absolute bases.now (changed_by self.old)) }
    {
        let Some(attribute) = link_attribute(&self.tag.name.0) else {
            return Ok(());
        };
        match self.url_of(bases, attribute)? {
            Some(url) => self.set(alloc, attribute, url.as_str()),
            None => Ok(()),
        }
    }
}

// The words of a `rel`, with `noopener`.
fn with_noopener(alloc: Global, rel: Option<&str>) -> Result<String, AllocError>
    ensures { IfOk result (λ words. string_bytes words ≡ with_noopener (option_map (λ r. r.now) rel.entry)) }
{
    let Some(rel) = rel else {
        return String::from_str(alloc, "noopener");
    };
    let mut words = String::from_str(alloc, rel)?;
    if !has_noopener(rel.as_bytes()) {
        words.push_str(" noopener")?;
    }
    Ok(words)
}

/// A tag as it is changed.
pub fn changed_tag(
    alloc: Global,
    changes: &Changes,
    bases: &Bases,
    tag: Tag,
) -> Result<ChangedTag, AllocError>
    ensures { IfOk result (λ changed. changed_by changed ≡ changed_tag changes.now bases.now (tag_of tag)) }
{
    let mut changed = ChangedTag::as_written(tag);
    match changed.tag.kind {
        TagKind::StartTag => {
            changed.make_absolute(alloc, bases)?;
            changed.apply_all(alloc, changes.rules())?;
            if changes.noopener() {
                changed.close_to_opener(alloc)?;
            }
        }
        TagKind::EndTag => {}
    }
    Ok(changed)
}
