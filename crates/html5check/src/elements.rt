//! What the standard says of elements and their tags.
ghost use Rattle.std.specs.Prelude.{◌≡◌};
ghost use Rattle.html5check.specs.Elements.{ends_before, ends_paragraph, has_optional_end, is_document_part, is_integration_point};

/// Whether both tags of an element of this name may be left out, so that it isn't looked for.
#[tactic(auto, unfolding(crate::specs::Elements::is_document_part))]
pub fn is_document_part(name: &str) -> bool
    ensures { result ≡ is_document_part name.now }
{
    matches!(name, "html" | "head" | "body")
}

/// Whether the end tag of an element of this name may be left out, by "Optional tags".
#[tactic(auto, unfolding(crate::specs::Elements::has_optional_end))]
pub fn has_optional_end(name: &str) -> bool
    ensures { result ≡ has_optional_end name.now }
{
    matches!(
        name,
        "li" | "dt"
            | "dd"
            | "p"
            | "rt"
            | "rp"
            | "optgroup"
            | "option"
            | "colgroup"
            | "caption"
            | "thead"
            | "tbody"
            | "tfoot"
            | "tr"
            | "td"
            | "th"
    )
}

// Whether a start tag of this name ends a paragraph.
#[tactic(auto, unfolding(crate::specs::Elements::ends_paragraph))]
fn ends_paragraph(name: &str) -> bool
    ensures { result ≡ ends_paragraph name.now }
{
    matches!(
        name,
        "address"
            | "article"
            | "aside"
            | "blockquote"
            | "center"
            | "dd"
            | "details"
            | "dialog"
            | "dir"
            | "div"
            | "dl"
            | "dt"
            | "fieldset"
            | "figcaption"
            | "figure"
            | "footer"
            | "form"
            | "h1"
            | "h2"
            | "h3"
            | "h4"
            | "h5"
            | "h6"
            | "header"
            | "hgroup"
            | "hr"
            | "li"
            | "listing"
            | "main"
            | "menu"
            | "nav"
            | "ol"
            | "p"
            | "plaintext"
            | "pre"
            | "search"
            | "section"
            | "summary"
            | "table"
            | "ul"
            | "xmp"
    )
}

/// Whether a start tag of this name ends an open element of the name `inner` whose end tag is left out.
#[tactic(auto, unfolding(crate::specs::Elements::ends_before))]
pub fn ends_before(name: &str, inner: &str) -> bool
    ensures { result ≡ ends_before name.now inner.now }
{
    match inner {
        "p" => ends_paragraph(name),
        "li" => name == "li",
        "dt" | "dd" => matches!(name, "dt" | "dd"),
        "rt" | "rp" => matches!(name, "rt" | "rp"),
        "option" => matches!(name, "option" | "optgroup" | "hr"),
        "optgroup" => matches!(name, "optgroup" | "hr"),
        "td" | "th" => matches!(name, "td" | "th" | "tr" | "tbody" | "thead" | "tfoot"),
        "tr" => matches!(name, "tr" | "tbody" | "thead" | "tfoot"),
        "tbody" | "thead" | "tfoot" => matches!(name, "tbody" | "thead" | "tfoot"),
        "caption" | "colgroup" => matches!(
            name,
            "caption" | "colgroup" | "td" | "th" | "tr" | "tbody" | "thead" | "tfoot"
        ),
        _ => false,
    }
}

/// Whether elements of HTML stand in an element of another namespace that has this name.
#[tactic(auto, unfolding(crate::specs::Elements::is_integration_point))]
pub fn is_integration_point(name: &str) -> bool
    ensures { result ≡ is_integration_point name.now }
{
    matches!(
        name,
        "foreignobject" | "desc" | "title" | "mi" | "mo" | "mn" | "ms" | "mtext" | "annotation-xml"
    )
}
