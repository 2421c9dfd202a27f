//! What a doctype says of its document: its mode, and whether the standard allows it.
ghost use Rattle.std.specs.Prelude.{◌≡◌, map, option_map, string_bytes};
ghost use Rattle.std.specs.Char.{to_ascii_lowercase};
ghost use Rattle.std.specs.Str.{bytes_eq};
ghost use Rattle.html5ever_interface.specs.Token.{doctype_of};
ghost use Rattle.tree_construction.specs.Names.{is_among};
ghost use Rattle.tree_construction.specs.Doctypes.{begins_with, begins_with_one, html_4_01_beginnings, is_allowed, is_allowed_system, is_named_html, limited_quirks_beginnings, means_limited_quirks, means_quirks, passes, quirks_beginnings, quirks_mode_of, quirks_public_ids, quirks_system_ids};

use crate::attributes::matches;
use html5ever_interface::interface::token::Doctype;
use std::alloc::Allocator;
use tree_construction::modes::QuirksMode;

// Public identifiers that mean quirks mode.
static QUIRKS_PUBLIC_IDS: [&str; 3] = [
    "-//w3o//dtd w3 html strict 3.0//en//",
    "-/w3c/dtd html 4.0 transitional/en",
    "html",
];

// The same, as a contract sees them.
#[inline(always)]
#[tactic(auto, unfolding(tree_construction::specs::Doctypes::quirks_public_ids))]
fn quirks_public_ids() -> &'static [&'static str; 3]
    ensures { map (λ name. name.now) result.now ≡ quirks_public_ids }
{
    &QUIRKS_PUBLIC_IDS
}

// System identifiers that mean quirks mode.
static QUIRKS_SYSTEM_IDS: [&str; 1] = [
    "http://www.ibm.com/data/dtd/v11/ibmxhtml1-transitional.dtd",
];

// The same, as a contract sees them.
#[inline(always)]
#[tactic(auto, unfolding(tree_construction::specs::Doctypes::quirks_system_ids))]
fn quirks_system_ids() -> &'static [&'static str; 1]
    ensures { map (λ name. name.now) result.now ≡ quirks_system_ids }
{
    &QUIRKS_SYSTEM_IDS
}

// Beginnings of public identifiers that mean quirks mode.
static QUIRKS_BEGINNINGS: [&str; 55] = [
    "+//silmaril//dtd html pro v0r11 19970101//",
    "-//as//dtd html 3.0 aswedit + extensions//",
    "-//advasoft ltd//dtd html 3.0 aswedit + extensions//",
    "-//ietf//dtd html 2.0 level 1//",
    "-//ietf//dtd html 2.0 level 2//",
    "-//ietf//dtd html 2.0 strict level 1//",
    "-//ietf//dtd html 2.0 strict level 2//",
    "-//ietf//dtd html 2.0 strict//",
    "-//ietf//dtd html 2.0//",
    "-//ietf//dtd html 2.1e//",
    "-//ietf//dtd html 3.0//",
    "-//ietf//dtd html 3.2 final//",
    "-//ietf//dtd html 3.2//",
    "-//ietf//dtd html 3//",
    "-//ietf//dtd html level 0//",
    "-//ietf//dtd html level 1//",
    "-//ietf//dtd html level 2//",
    "-//ietf//dtd html level 3//",
    "-//ietf//dtd html strict level 0//",
    "-//ietf//dtd html strict level 1//",
    "-//ietf//dtd html strict level 2//",
    "-//ietf//dtd html strict level 3//",
    "-//ietf//dtd html strict//",
    "-//ietf//dtd html//",
    "-//metrius//dtd metrius presentational//",
    "-//microsoft//dtd internet explorer 2.0 html strict//",
    "-//microsoft//dtd internet explorer 2.0 html//",
    "-//microsoft//dtd internet explorer 2.0 tables//",
    "-//microsoft//dtd internet explorer 3.0 html strict//",
    "-//microsoft//dtd internet explorer 3.0 html//",
    "-//microsoft//dtd internet explorer 3.0 tables//",
    "-//netscape comm. corp.//dtd html//",
    "-//netscape comm. corp.//dtd strict html//",
    "-//o'reilly and associates//dtd html 2.0//",
    "-//o'reilly and associates//dtd html extended 1.0//",
    "-//o'reilly and associates//dtd html extended relaxed 1.0//",
    "-//sq//dtd html 2.0 hotmetal + extensions//",
    "-//softquad software//dtd hotmetal pro 6.0::19990601::extensions to html 4.0//",
    "-//softquad//dtd hotmetal pro 4.0::19971010::extensions to html 4.0//",
    "-//spyglass//dtd html 2.0 extended//",
    "-//sun microsystems corp.//dtd hotjava html//",
    "-//sun microsystems corp.//dtd hotjava strict html//",
    "-//w3c//dtd html 3 1995-03-24//",
    "-//w3c//dtd html 3.2 draft//",
    "-//w3c//dtd html 3.2 final//",
    "-//w3c//dtd html 3.2//",
    "-//w3c//dtd html 3.2s draft//",
    "-//w3c//dtd html 4.0 frameset//",
    "-//w3c//dtd html 4.0 transitional//",
    "-//w3c//dtd html experimental 19960712//",
    "-//w3c//dtd html experimental 970421//",
    "-//w3c//dtd w3 html//",
    "-//w3o//dtd w3 html 3.0//",
    "-//webtechs//dtd mozilla html 2.0//",
    "-//webtechs//dtd mozilla html//",
];

// The same, as a contract sees them.
#[inline(always)]
#[tactic(auto, unfolding(tree_construction::specs::Doctypes::quirks_beginnings))]
fn quirks_beginnings() -> &'static [&'static str; 55]
    ensures { map (λ name. name.now) result.now ≡ quirks_beginnings }
{
    &QUIRKS_BEGINNINGS
}

// Beginnings that mean quirks mode where there is no system identifier, and else limited-quirks mode.
static HTML_4_01_BEGINNINGS: [&str; 2] = [
    "-//w3c//dtd html 4.01 frameset//",
    "-//w3c//dtd html 4.01 transitional//",
];

// The same, as a contract sees them.
#[inline(always)]
#[tactic(auto, unfolding(tree_construction::specs::Doctypes::html_4_01_beginnings))]
fn html_4_01_beginnings() -> &'static [&'static str; 2]
    ensures { map (λ name. name.now) result.now ≡ html_4_01_beginnings }
{
    &HTML_4_01_BEGINNINGS
}

// Beginnings that mean limited-quirks mode.
static LIMITED_QUIRKS_BEGINNINGS: [&str; 2] = [
    "-//w3c//dtd xhtml 1.0 frameset//",
    "-//w3c//dtd xhtml 1.0 transitional//",
];

// The same, as a contract sees them.
#[inline(always)]
#[tactic(auto, unfolding(tree_construction::specs::Doctypes::limited_quirks_beginnings))]
fn limited_quirks_beginnings() -> &'static [&'static str; 2]
    ensures { map (λ name. name.now) result.now ≡ limited_quirks_beginnings }
{
    &LIMITED_QUIRKS_BEGINNINGS
}

// Whether an identifier in lower case is this one.
#[tactic(auto, using(crate::proofs::Texts::bytes_eq_comm))]
fn is_id(id: &str, other: &str) -> bool
    ensures { result ≡ bytes_eq other.now (map to_ascii_lowercase id.now) }
{
    matches(other, id)
}

// Whether an identifier in lower case is one of these.
#[tactic(auto, unfolding(tree_construction::specs::Names::is_among))]
fn is_among(id: &str, ids: &[&'static str]) -> bool
    ensures { result ≡ is_among (map to_ascii_lowercase id.now) (map (λ other. other.now) ids.now) }
{
    for other in ids {
        if is_id(id, other) {
            return true;
        }
    }
    false
}

// Whether a text in lower case begins with another.
#[tactic(auto, unfolding(tree_construction::specs::Doctypes::begins_with))]
fn begins_with(beginning: &[u8], text: &[u8]) -> bool
    ensures { result ≡ begins_with beginning.now (map to_ascii_lowercase text.now) }
{
    let mut left = text;
    for letter in beginning {
        let Some((byte, others)) = left.split_first() else {
            return false;
        };
        if byte.to_ascii_lowercase() != *letter {
            return false;
        }
        left = others;
    }
    true
}

// Whether an identifier in lower case begins with one of these.
#[tactic(auto, unfolding(tree_construction::specs::Doctypes::begins_with_one))]
fn begins_with_one(id: &str, beginnings: &[&'static str]) -> bool
    ensures { result
        ≡ begins_with_one (map (λ other. other.now) beginnings.now) (map to_ascii_lowercase id.now) }
{
    for beginning in beginnings {
        if begins_with(beginning.as_bytes(), id.as_bytes()) {
            return true;
        }
    }
    false
}

// Whether an identifier is there, and is one of these.
fn has_id<A: Allocator>(id: &Option<String<A>>, ids: &[&'static str]) -> bool
    ensures { result ≡ passes (λ text. is_among text (map (λ other. other.now) ids.now))
        (option_map string_bytes id.now) }
{
    match id {
        Some(id) => is_among(id.as_str(), ids),
        None => false,
    }
}

// Whether an identifier is there, and begins with one of these.
fn has_beginning<A: Allocator>(id: &Option<String<A>>, beginnings: &[&'static str]) -> bool
    ensures { result ≡ passes (begins_with_one (map (λ other. other.now) beginnings.now))
        (option_map string_bytes id.now) }
{
    match id {
        Some(id) => begins_with_one(id.as_str(), beginnings),
        None => false,
    }
}

// Whether a name is there, and is `html`.
fn is_named_html<A: Allocator>(name: &Option<String<A>>) -> bool
    ensures { result ≡ is_named_html (option_map string_bytes name.now) }
{
    match name {
        Some(name) => name.as_str() == "html",
        None => false,
    }
}

// Whether a doctype means quirks mode.
#[tactic(auto, unfolding(tree_construction::specs::Doctypes::means_quirks))]
fn means_quirks<A: Allocator>(doctype: &Doctype<A>) -> bool
    ensures { result ≡ means_quirks (doctype_of doctype.now) }
{
    doctype.force_quirks
        || !is_named_html(&doctype.name)
        || has_id(&doctype.public_id, quirks_public_ids())
        || has_id(&doctype.system_id, quirks_system_ids())
        || has_beginning(&doctype.public_id, quirks_beginnings())
        || (doctype.system_id.is_none()
            && has_beginning(&doctype.public_id, html_4_01_beginnings()))
}

// Whether a doctype that does not mean quirks mode means limited-quirks mode.
#[tactic(auto, unfolding(tree_construction::specs::Doctypes::means_limited_quirks))]
fn means_limited_quirks<A: Allocator>(doctype: &Doctype<A>) -> bool
    ensures { result ≡ means_limited_quirks (doctype_of doctype.now) }
{
    has_beginning(&doctype.public_id, limited_quirks_beginnings())
        || (doctype.system_id.is_some()
            && has_beginning(&doctype.public_id, html_4_01_beginnings()))
}

/// The mode that a doctype gives its document.
pub fn quirks_mode_of<A: Allocator>(doctype: &Doctype<A>) -> QuirksMode
    ensures { result ≡ quirks_mode_of (doctype_of doctype.now) }
{
    if means_quirks(doctype) {
        QuirksMode::Quirks
    } else if means_limited_quirks(doctype) {
        QuirksMode::LimitedQuirks
    } else {
        QuirksMode::NoQuirks
    }
}

// Whether there is no system identifier, or the one that the standard allows.
fn is_allowed_system<A: Allocator>(id: &Option<String<A>>) -> bool
    ensures { result ≡ is_allowed_system (option_map string_bytes id.now) }
{
    match id {
        Some(id) => id.as_str() == "about:legacy-compat",
        None => true,
    }
}

/// Whether a doctype is no parse error.
pub fn is_allowed<A: Allocator>(doctype: &Doctype<A>) -> bool
    ensures { result ≡ is_allowed (doctype_of doctype.now) }
{
    is_named_html(&doctype.name)
        && doctype.public_id.is_none()
        && is_allowed_system(&doctype.system_id)
}
