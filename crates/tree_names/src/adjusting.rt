//! Names of MathML and SVG: tag names and attributes in mixed case, and attributes with a namespace. The
//! kinds of their elements.
ghost use Rattle.std.specs.Prelude.{◌≡◌, ℕ, List, [], ◌∷◌, codes, map, string_bytes, IfNone, IfOk, IfSome, OnOk, if◌then◌else◌};
ghost use Rattle.std.specs.Option.{option_copied};
ghost use Rattle.markup5ever.specs.Names.{attribute_of, plain_name, qualified_name_of};
ghost use Rattle.tree_construction.specs.Adjusting.{adjusted_attributes, adjusted_in, adjusted_name, adjusted_tag_name, cased, foreign_attributes, math_attribute_names, svg_attribute_names, svg_tag_names};
ghost use Rattle.tree_construction.specs.Names.{has_such, is_among, math_kind_of, says_html, svg_kind_of};
ghost use Rattle.tree_construction.specs.declared.kinds.Namespace.TheVariants.{Svg};
ghost use Rattle.tree_construction.specs.declared.kinds.Kind.TheVariants.{Annotation, HtmlAnnotation};
ghost use Rattle.tree_names.specs.ForeignNames.{foreign_of};

use crate::attributes::matches;
use markup5ever::interface::{self, Attribute, LocalName, Prefix, QualName};
use std::alloc::{AllocError, Allocator};
use tree_construction::kinds::{Kind, Namespace};

// Tag names of SVG in mixed case.
static SVG_TAG_NAMES: [&str; 37] = [
    "altGlyph",
    "altGlyphDef",
    "altGlyphItem",
    "animateColor",
    "animateMotion",
    "animateTransform",
    "clipPath",
    "feBlend",
    "feColorMatrix",
    "feComponentTransfer",
    "feComposite",
    "feConvolveMatrix",
    "feDiffuseLighting",
    "feDisplacementMap",
    "feDistantLight",
    "feDropShadow",
    "feFlood",
    "feFuncA",
    "feFuncB",
    "feFuncG",
    "feFuncR",
    "feGaussianBlur",
    "feImage",
    "feMerge",
    "feMergeNode",
    "feMorphology",
    "feOffset",
    "fePointLight",
    "feSpecularLighting",
    "feSpotLight",
    "feTile",
    "feTurbulence",
    "foreignObject",
    "glyphRef",
    "linearGradient",
    "radialGradient",
    "textPath",
];

// The same, as a contract sees them.
#[inline(always)]
#[tactic(auto, unfolding(tree_construction::specs::Adjusting::svg_tag_names))]
fn svg_tag_names() -> &'static [&'static str; 37]
    ensures { map (λ name. name.now) result.now ≡ svg_tag_names }
{
    &SVG_TAG_NAMES
}

// Names of attributes of SVG in mixed case.
static SVG_ATTRIBUTE_NAMES: [&str; 58] = [
    "attributeName",
    "attributeType",
    "baseFrequency",
    "baseProfile",
    "calcMode",
    "clipPathUnits",
    "diffuseConstant",
    "edgeMode",
    "filterUnits",
    "glyphRef",
    "gradientTransform",
    "gradientUnits",
    "kernelMatrix",
    "kernelUnitLength",
    "keyPoints",
    "keySplines",
    "keyTimes",
    "lengthAdjust",
    "limitingConeAngle",
    "markerHeight",
    "markerUnits",
    "markerWidth",
    "maskContentUnits",
    "maskUnits",
    "numOctaves",
    "pathLength",
    "patternContentUnits",
    "patternTransform",
    "patternUnits",
    "pointsAtX",
    "pointsAtY",
    "pointsAtZ",
    "preserveAlpha",
    "preserveAspectRatio",
    "primitiveUnits",
    "refX",
    "refY",
    "repeatCount",
    "repeatDur",
    "requiredExtensions",
    "requiredFeatures",
    "specularConstant",
    "specularExponent",
    "spreadMethod",
    "startOffset",
    "stdDeviation",
    "stitchTiles",
    "surfaceScale",
    "systemLanguage",
    "tableValues",
    "targetX",
    "targetY",
    "textLength",
    "viewBox",
    "viewTarget",
    "xChannelSelector",
    "yChannelSelector",
    "zoomAndPan",
];

// The same, as a contract sees them.
#[inline(always)]
#[tactic(auto, unfolding(tree_construction::specs::Adjusting::svg_attribute_names))]
fn svg_attribute_names() -> &'static [&'static str; 58]
    ensures { map (λ name. name.now) result.now ≡ svg_attribute_names }
{
    &SVG_ATTRIBUTE_NAMES
}

// Names of attributes of MathML in mixed case.
static MATH_ATTRIBUTE_NAMES: [&str; 1] = ["definitionURL"];

// The same, as a contract sees them.
#[inline(always)]
#[tactic(auto, unfolding(tree_construction::specs::Adjusting::math_attribute_names))]
fn math_attribute_names() -> &'static [&'static str; 1]
    ensures { map (λ name. name.now) result.now ≡ math_attribute_names }
{
    &MATH_ATTRIBUTE_NAMES
}

// A name in a tag, and what it is adjusted to.
struct Foreign {
    written: &'static str,
    prefix: Option<&'static str>,
    ns: &'static str,
    local: &'static str,
}

const XLINK: &str = "http://www.w3.org/1999/xlink";

const XML: &str = "http://www.w3.org/XML/1998/namespace";

const XMLNS: &str = "http://www.w3.org/2000/xmlns/";

// The names of attributes that have a namespace.
static FOREIGN_ATTRIBUTES: [Foreign; 11] = [
    Foreign {
        written: "xlink:actuate",
        prefix: Some("xlink"),
        ns: XLINK,
        local: "actuate",
    },
    Foreign {
        written: "xlink:arcrole",
        prefix: Some("xlink"),
        ns: XLINK,
        local: "arcrole",
    },
    Foreign {
        written: "xlink:href",
        prefix: Some("xlink"),
        ns: XLINK,
        local: "href",
    },
    Foreign {
        written: "xlink:role",
        prefix: Some("xlink"),
        ns: XLINK,
        local: "role",
    },
    Foreign {
        written: "xlink:show",
        prefix: Some("xlink"),
        ns: XLINK,
        local: "show",
    },
    Foreign {
        written: "xlink:title",
        prefix: Some("xlink"),
        ns: XLINK,
        local: "title",
    },
    Foreign {
        written: "xlink:type",
        prefix: Some("xlink"),
        ns: XLINK,
        local: "type",
    },
    Foreign {
        written: "xml:lang",
        prefix: Some("xml"),
        ns: XML,
        local: "lang",
    },
    Foreign {
        written: "xml:space",
        prefix: Some("xml"),
        ns: XML,
        local: "space",
    },
    Foreign {
        written: "xmlns",
        prefix: None,
        ns: XMLNS,
        local: "xmlns",
    },
    Foreign {
        written: "xmlns:xlink",
        prefix: Some("xmlns"),
        ns: XMLNS,
        local: "xlink",
    },
];

// The same, as a contract sees them.
#[inline(always)]
#[tactic(auto, unfolding(tree_construction::specs::Adjusting::foreign_attributes))]
fn foreign_attributes() -> &'static [Foreign]
    ensures { map foreign_of result.now ≡ foreign_attributes }
{
    &FOREIGN_ATTRIBUTES
}

// The name among these that is this one in lower case.
#[tactic(auto, unfolding(tree_construction::specs::Adjusting::cased))]
fn cased(names: &[&'static str], name: &str) -> Option<&'static str>
    ensures some { IfSome result
        (λ found. found.now ≡ cased (map (λ other. other.now) names.now) name.now) }
    ensures none { IfNone result (name.now ≡ cased (map (λ other. other.now) names.now) name.now) }
{
    for other in names {
        if matches(name, other) {
            return Some(*other);
        }
    }
    None
}

/// The tag name that an SVG element gets, where it is not that of the tag.
#[tactic(auto, unfolding(tree_construction::specs::Adjusting::adjusted_tag_name))]
pub fn svg_tag_name(name: &str) -> Option<&'static str>
    ensures some { IfSome result (λ adjusted. adjusted.now ≡ adjusted_tag_name Svg name.now) }
    ensures none { IfNone result (name.now ≡ adjusted_tag_name Svg name.now) }
{
    cased(svg_tag_names(), name)
}

// The row of a name that has a namespace.
#[tactic(auto, unfolding(tree_construction::specs::Adjusting::adjusted_name))]
fn foreign_attribute(name: &str) -> Option<&'static Foreign>
    ensures some { IfSome result (λ row. (cases : List (List ℕ))
        → adjusted_name foreign_attributes cases name.now ≡ (foreign_of row.now).name) }
    ensures none { IfNone result ((cases : List (List ℕ))
        → adjusted_name foreign_attributes cases name.now ≡ plain_name (cased cases name.now)) }
{
    for row in foreign_attributes() {
        if row.written == name {
            return Some(row);
        }
    }
    None
}

// The name that a row adjusts to.
fn foreign_name<A: Allocator + Copy>(row: &Foreign, alloc: A) -> Result<QualName<A>, AllocError>
    ensures { IfOk result (λ name. qualified_name_of name ≡ (foreign_of row.now).name) }
{
    let prefix = match row.prefix {
        Some(prefix) => Some(Prefix(String::from_str(alloc, prefix)?)),
        None => None,
    };
    let ns = interface::Namespace(String::from_str(alloc, row.ns)?);
    let local = LocalName(String::from_str(alloc, row.local)?);
    Ok(QualName { prefix, ns, local })
}

// Adjusts the name of an attribute.
fn adjust_name<A: Allocator + Copy>(
    name: &mut QualName<A>,
    cases: &[&'static str],
    alloc: A,
) -> Result<(), AllocError>
    ensures { OnOk result (qualified_name_of name.new
        ≡ adjusted_name foreign_attributes (map (λ other. other.now) cases.now)
        (string_bytes name.old.local.0)) }
{
    if let Some(row) = foreign_attribute(name.local.0.as_str()) {
        *name = foreign_name(row, alloc)?;
        return Ok(());
    }
    if let Some(adjusted) = cased(cases, name.local.0.as_str()) {
        name.local = LocalName(String::from_str(alloc, adjusted)?);
    }
    name.prefix = None;
    name.ns = interface::Namespace(String::new(alloc));
    Ok(())
}

// Adjusts the names of attributes.
fn adjust_names<A: Allocator + Copy>(
    attributes: &mut Vec<Attribute<A>, A>,
    cases: &[&'static str],
) -> Result<(), AllocError>
    ensures { OnOk result (map attribute_of attributes.new.items
        ≡ map (adjusted_in (map (λ other. other.now) cases.now))
        (map attribute_of attributes.old.items)) }
{
    let alloc = *attributes.allocator();
    for at in 0..attributes.len() {
        adjust_name(&mut attributes[at].name, cases, alloc)?;
    }
    Ok(())
}

/// Adjusts the attributes of an element in a namespace. Where memory runs out, some are adjusted.
#[tactic(auto, unfolding(tree_construction::specs::Adjusting::adjusted_attributes))]
pub fn adjust_attributes<A: Allocator + Copy>(
    attributes: &mut Vec<Attribute<A>, A>,
    namespace: Namespace,
) -> Result<(), AllocError>
    ensures ok { OnOk result (map attribute_of attributes.new.items
        ≡ adjusted_attributes namespace (map attribute_of attributes.old.items)) }
{
    match namespace {
        Namespace::Html => Ok(()),
        Namespace::MathMl => adjust_names(attributes, math_attribute_names()),
        Namespace::Svg => adjust_names(attributes, svg_attribute_names()),
    }
}

// Whether an attribute makes an `annotation-xml` element an HTML integration point.
fn says_html<A: Allocator>(attribute: &Attribute<A>) -> bool
    ensures { result ≡ says_html (attribute_of attribute.now) }
{
    let value = attribute.value.as_str();
    attribute.name.local.0.as_str() == "encoding"
        && (matches("text/html", value) || matches("application/xhtml+xml", value))
}

// Whether one of the attributes does.
#[tactic(auto, unfolding(tree_construction::specs::Names::has_such))]
fn have_html_encoding<A: Allocator>(attributes: &[Attribute<A>]) -> bool
    ensures { result ≡ has_such says_html (map attribute_of attributes.now) }
{
    for attribute in attributes {
        if says_html(attribute) {
            return true;
        }
    }
    false
}

// The kind of an `annotation-xml` element.
fn annotation_kind<A: Allocator>(attributes: &[Attribute<A>]) -> Kind
    ensures { result
        ≡ (if has_such says_html (map attribute_of attributes.now)
        then HtmlAnnotation else Annotation) }
{
    if have_html_encoding(attributes) {
        Kind::HtmlAnnotation
    } else {
        Kind::Annotation
    }
}

// Whether a MathML element of this name is a text integration point.
#[tactic(auto, unfolding(tree_construction::specs::Names::is_among))]
fn is_text_point(name: &str) -> bool
    ensures { result
        ≡ is_among name.now
        (codes "mi" ∷ codes "mo" ∷ codes "mn" ∷ codes "ms" ∷ codes "mtext" ∷ []) }
{
    matches!(name, "mi" | "mo" | "mn" | "ms" | "mtext")
}

/// The kind of a MathML element, by its name and the attributes of its token.
pub fn math_kind<A: Allocator>(name: &str, attributes: &[Attribute<A>]) -> Kind
    ensures { result ≡ math_kind_of name.now (map attribute_of attributes.now) }
{
    if is_text_point(name) {
        Kind::MathTextPoint
    } else if name == "annotation-xml" {
        annotation_kind(attributes)
    } else {
        Kind::OtherMath
    }
}

/// The kind of an SVG element, by its adjusted name.
#[tactic(auto, unfolding(tree_construction::specs::Names::is_among))]
pub fn svg_kind(name: &str) -> Kind
    ensures { result ≡ svg_kind_of name.now }
{
    match name {
        "foreignObject" | "desc" | "title" => Kind::SvgHtmlPoint,
        "script" => Kind::SvgScript,
        _ => Kind::OtherSvg,
    }
}
