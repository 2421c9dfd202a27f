//! The findings of a token by itself.
ghost use Rattle.std.specs.Prelude.{◌≡◌, ◌++◌, ◌∷◌, [], IfSome, OnOk, map, option_map, string_bytes};
ghost use Rattle.html5check.specs.Faults.{attribute_finding, attribute_findings, element_findings, error_finding, finding_by, plain_finding, self_closing_findings, start_tag_findings};
ghost use Rattle.html5check.specs.Seen.{seen_by};
ghost use Rattle.html5ever_interface.specs.Message.{message_bytes};
ghost use Rattle.html5ever_interface.specs.Token.{tag_of};
ghost use Rattle.markup5ever.specs.Names.{attribute_of};

use crate::finding::{Fault, Finding};
use crate::seen::SeenToken;
use html5elements::is_void;
use html5errors::error_code;
use html5ever_interface::interface::message::ErrorMessage;
use html5ever_interface::interface::token::Tag;
use html5names::{meant_attribute, meant_element};
use markup5ever::interface::Attribute;
use std::alloc::AllocError;

/// Something wrong at a token.
pub fn at_token<'t>(seen: &SeenToken, fault: Fault, subject: &'t str) -> Finding<'t>
    ensures { finding_by result ≡ plain_finding (seen_by seen.now) fault subject.now }
{
    Finding {
        begin: seen.begin,
        end: seen.end,
        fault,
        subject,
        meant: None,
    }
}

/// A parse error: its code, or its message if it has none.
pub fn of_error<'t>(seen: &SeenToken, message: &'t ErrorMessage) -> Finding<'t>
    ensures { finding_by result ≡ error_finding (seen_by seen.now) (message_bytes message.now) }
{
    match error_code(message) {
        Some(code) => at_token(seen, Fault::Parse(code), ""),
        None => at_token(seen, Fault::Uncoded, message),
    }
}

// Appends what is wrong with the name of an element.
fn push_misspelled_element<'t>(
    found: &mut Vec<Finding<'t>>,
    seen: &SeenToken,
    name: &'t str,
) -> Result<(), AllocError>
    ensures { OnOk result (map finding_by found.new.items
        ≡ map finding_by found.old.items ++ element_findings (seen_by seen.now) name.now) }
{
    if let Some(meant) = meant_element(name) {
        found.push(Finding {
            meant: Some(meant),
            ..at_token(seen, Fault::MisspelledElement, name)
        })?;
    }
    Ok(())
}

// Appends what is wrong with the name of an attribute.
fn push_misspelled_attribute<'t>(
    found: &mut Vec<Finding<'t>>,
    seen: &SeenToken,
    attribute: &'t Attribute,
) -> Result<(), AllocError>
    ensures { OnOk result (map finding_by found.new.items
        ≡ map finding_by found.old.items ++ attribute_finding (seen_by seen.now) (attribute_of attribute.now)) }
{
    let name = attribute.name.local.0.as_str();
    if let Some(meant) = meant_attribute(name) {
        found.push(Finding {
            meant: Some(meant),
            ..at_token(seen, Fault::MisspelledAttribute, name)
        })?;
    }
    Ok(())
}

// Appends what is wrong with the names of attributes.
fn push_misspelled_attributes<'t>(
    found: &mut Vec<Finding<'t>>,
    seen: &SeenToken,
    attributes: &'t [Attribute],
) -> Result<(), AllocError>
    ensures { OnOk result (map finding_by found.new.items
        ≡ map finding_by found.old.items ++ attribute_findings (seen_by seen.now) (map attribute_of attributes.now)) }
{
    for attribute in attributes {
        push_misspelled_attribute(found, seen, attribute)?;
    }
    Ok(())
}

// Appends what is wrong with the `/` of a start tag.
fn push_self_closing<'t>(
    found: &mut Vec<Finding<'t>>,
    seen: &SeenToken,
    tag: &'t Tag,
) -> Result<(), AllocError>
    ensures { OnOk result (map finding_by found.new.items
        ≡ map finding_by found.old.items ++ self_closing_findings (seen_by seen.now) (tag_of tag.now)) }
{
    let name = tag.name.0.as_str();
    if tag.self_closing && !is_void(name) {
        found.push(at_token(seen, Fault::SelfClosingElement, name))?;
    }
    Ok(())
}

/// Appends what is wrong with a start tag by itself.
pub fn push_start_tag<'t>(
    found: &mut Vec<Finding<'t>>,
    seen: &SeenToken,
    tag: &'t Tag,
) -> Result<(), AllocError>
    ensures { OnOk result (map finding_by found.new.items ≡ map finding_by found.old.items
        ++ start_tag_findings (seen_by seen.now) (tag_of tag.now)) }
{
    push_misspelled_element(found, seen, &tag.name.0)?;
    push_misspelled_attributes(found, seen, &tag.attrs)?;
    push_self_closing(found, seen, tag)
}
