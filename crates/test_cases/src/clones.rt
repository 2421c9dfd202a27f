//! Clones of what a case tells: of each token, of tags and doctypes, of attributes and names.
use html5ever_interface::collect::Collector;
use html5ever_interface::interface::token::{Tag, Token};
use markup5ever::interface::{Attribute, QualName};
use std::alloc::AllocError;

// Whether the clones of a name equal it.
fn is_cloned_name(name: &QualName) -> Result<bool, AllocError> {
    Ok(
        name.try_clone()? == *name
            && name.ns.try_clone()? == name.ns
            && name.local.try_clone()? == name.local,
    )
}

// Whether the clones of attributes equal them.
fn are_cloned(attributes: &[Attribute]) -> Result<bool, AllocError> {
    for attribute in attributes {
        if attribute.try_clone()? != *attribute || !is_cloned_name(&attribute.name)? {
            return Ok(false);
        }
    }
    Ok(true)
}

// Whether the clones of a tag equal it.
fn is_cloned_tag(tag: &Tag) -> Result<bool, AllocError> {
    Ok(tag.try_clone()? == *tag && tag.name.try_clone()? == tag.name && are_cloned(&tag.attrs)?)
}

// Whether the clones of a token equal it.
fn is_cloned(token: &Token) -> Result<bool, AllocError> {
    if token.try_clone()? != *token {
        return Ok(false);
    }
    match token {
        Token::TagToken(tag) => is_cloned_tag(tag),
        Token::DoctypeToken(doctype) => Ok(doctype.try_clone()? == *doctype),
        _ => Ok(true),
    }
}

/// Whether the clones of each entry that a collector holds equal it.
pub fn check_clones(sink: &Collector) -> Result<bool, AllocError> {
    for (token, _) in sink.entries() {
        if !is_cloned(token)? {
            return Ok(false);
        }
    }
    Ok(true)
}
