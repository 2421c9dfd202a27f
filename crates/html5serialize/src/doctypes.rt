//! Doctypes as they are written.
ghost use Rattle.std.specs.Prelude.{◌≡◌, ◌++◌, encode_utf8, encode_utf8_all, option_map, string_bytes, None, Some, OnOk};
ghost use Rattle.html5ever_interface.specs.Token.{doctype_of};
ghost use Rattle.html5serialize.specs.Doctypes.{doctype_text, identifier_text, identifiers_text, name_text, quote_for};

use crate::names::is_without_double_quotes;
use html5ever_interface::interface::token::Doctype;
use std::alloc::{AllocError, Allocator};

// The quote round an identifier.
fn quote_for(identifier: &str) -> &'static str
    ensures { result.now ≡ encode_utf8 (quote_for identifier.now) }
{
    if is_without_double_quotes(identifier) {
        "\""
    } else {
        "'"
    }
}

// Appends an identifier in its quotes, or without its second one.
fn push_identifier<A: Allocator>(
    out: &mut String<A>,
    is_closed: bool,
    identifier: &str,
) -> Result<(), AllocError>
    ensures { OnOk result (string_bytes out.new ≡ string_bytes out.old
        ++ encode_utf8_all (identifier_text is_closed identifier.now)) }
{
    let quote = quote_for(identifier);
    out.push_str(quote)?;
    out.push_str(identifier)?;
    if is_closed {
        out.push_str(quote)?;
    }
    Ok(())
}

// Appends the text after the name, if there is no public identifier.
fn push_system<A: Allocator>(
    out: &mut String<A>,
    quirks: bool,
    system: &Option<String<A>>,
) -> Result<(), AllocError>
    ensures { OnOk result (string_bytes out.new ≡ string_bytes out.old
        ++ encode_utf8_all (identifiers_text quirks None (option_map string_bytes system.now))) }
{
    let Some(system) = system else {
        if quirks {
            out.push_str(" PUBLIC")?;
        }
        return Ok(());
    };
    out.push_str(" SYSTEM ")?;
    push_identifier(out, !quirks, system)
}

// Appends the text after the name, if there is a public identifier.
fn push_public<A: Allocator>(
    out: &mut String<A>,
    quirks: bool,
    public: &str,
    system: &Option<String<A>>,
) -> Result<(), AllocError>
    ensures { OnOk result (string_bytes out.new ≡ string_bytes out.old
        ++ encode_utf8_all (identifiers_text quirks (Some public.now) (option_map string_bytes system.now))) }
{
    out.push_str(" PUBLIC ")?;
    let Some(system) = system else {
        return push_identifier(out, !quirks, public);
    };
    push_identifier(out, true, public)?;
    out.push_str(" ")?;
    push_identifier(out, !quirks, system)?;
    Ok(())
}

// Appends the text after the name.
fn push_identifiers<A: Allocator>(
    out: &mut String<A>,
    doctype: &Doctype<A>,
) -> Result<(), AllocError>
    ensures { OnOk result (string_bytes out.new ≡ string_bytes out.old
        ++ encode_utf8_all (identifiers_text doctype.now.force_quirks
        (option_map string_bytes doctype.now.public_id) (option_map string_bytes doctype.now.system_id))) }
{
    match &doctype.public_id {
        Some(public) => push_public(out, doctype.force_quirks, public, &doctype.system_id),
        None => push_system(out, doctype.force_quirks, &doctype.system_id),
    }
}

// Appends the text after `<!DOCTYPE`.
fn push_name<A: Allocator>(out: &mut String<A>, doctype: &Doctype<A>) -> Result<(), AllocError>
    ensures { OnOk result (string_bytes out.new ≡ string_bytes out.old
        ++ encode_utf8_all (name_text (doctype_of doctype.now) (option_map string_bytes doctype.now.name))) }
{
    let Some(name) = &doctype.name else {
        return Ok(());
    };
    out.push_str(" ")?;
    out.push_str(name)?;
    push_identifiers(out, doctype)?;
    Ok(())
}

// Appends a doctype.
pub fn push_doctype<A: Allocator>(
    out: &mut String<A>,
    doctype: &Doctype<A>,
) -> Result<(), AllocError>
    ensures { OnOk result (string_bytes out.new
        ≡ string_bytes out.old ++ encode_utf8_all (doctype_text (doctype_of doctype.now))) }
{
    out.push_str("<!DOCTYPE")?;
    push_name(out, doctype)?;
    out.push_str(">")?;
    Ok(())
}
