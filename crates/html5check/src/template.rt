//! Constructs of template languages, which no tokenizer should see.
ghost use Rattle.std.specs.Prelude.{◌≡◌, IfOk, map, option_map};
ghost use Rattle.html5check.specs.Templates.{begun_in, construct_by, constructs_of, letter_of, mask_by, masked, masked_byte, outside, passed, settled, template_named};

use std::alloc::{AllocError, Global};

/// A template language.
#[derive(Clone, Copy, Debug, PartialEq, Eq)]
pub enum Template {
    /// `{{ }}` is a value, `{% %}` and `{# #}` are not: Jinja, Django, Twig, Liquid.
    Jinja,
    /// `{{ }}` and `{{{ }}}` are values, but `{{# }}`, `{{^ }}`, `{{/ }}`, `{{! }}`, `{{> }}` are not: Mustache,
    /// Handlebars.
    Mustache,
    /// `<%= %>` and `<%- %>` are values, other `<% %>` are not: ERB, EJS.
    Erb,
}

/// The template language of this name.
#[tactic(auto, unfolding(crate::specs::Templates::template_named))]
pub fn template_named(name: &str) -> Option<Template>
    ensures { result ≡ template_named name.now }
{
    match name {
        "jinja" => Some(Template::Jinja),
        "mustache" => Some(Template::Mustache),
        "erb" => Some(Template::Erb),
        _ => None,
    }
}

// A construct of a template language: what opens it, what closes it, and whether it stands for a value.
#[derive(Clone, Copy)]
struct Construct {
    open: &'static str,
    close: &'static str,
    is_value: bool,
}

static JINJA: [Construct; 3] = [
    Construct {
        open: "{{",
        close: "}}",
        is_value: true,
    },
    Construct {
        open: "{%",
        close: "%}",
        is_value: false,
    },
    Construct {
        open: "{#",
        close: "#}",
        is_value: false,
    },
];

static MUSTACHE: [Construct; 7] = [
    Construct {
        open: "{{{",
        close: "}}}",
        is_value: true,
    },
    Construct {
        open: "{{#",
        close: "}}",
        is_value: false,
    },
    Construct {
        open: "{{^",
        close: "}}",
        is_value: false,
    },
    Construct {
        open: "{{/",
        close: "}}",
        is_value: false,
    },
    Construct {
        open: "{{!",
        close: "}}",
        is_value: false,
    },
    Construct {
        open: "{{>",
        close: "}}",
        is_value: false,
    },
    Construct {
        open: "{{",
        close: "}}",
        is_value: true,
    },
];

static ERB: [Construct; 3] = [
    Construct {
        open: "<%=",
        close: "%>",
        is_value: true,
    },
    Construct {
        open: "<%-",
        close: "%>",
        is_value: true,
    },
    Construct {
        open: "<%",
        close: "%>",
        is_value: false,
    },
];

// The constructs of a template language, the first that fits first.
fn constructs_of(template: Template) -> &'static [Construct]
    ensures { map construct_by result.now ≡ constructs_of template }
{
    match template {
        Template::Jinja => JINJA.as_slice(),
        Template::Mustache => MUSTACHE.as_slice(),
        Template::Erb => ERB.as_slice(),
    }
}

// The construct that begins a text.
fn begun_in(constructs: &[Construct], text: &[u8]) -> Option<Construct>
    ensures { option_map construct_by result ≡ begun_in (map construct_by constructs.now) text.now }
{
    for construct in constructs {
        if text.starts_with(construct.open.as_bytes()) {
            return Some(*construct);
        }
    }
    None
}

// Where a walk through a text stands: in a construct or in none, how many bytes of what opens or closes it are left, and
// whether they close it.
#[derive(Clone, Copy)]
struct Mask {
    construct: Option<Construct>,
    left: usize,
    closes: bool,
}

impl Mask {
    // In no construct.
    const OUTSIDE: Mask = Mask {
        construct: None,
        left: 0,
        closes: false,
    };

    // At the next byte, which this text begins with.
    fn settled(self, constructs: &[Construct], text: &[u8]) -> Mask
        ensures { mask_by result ≡ settled (map construct_by constructs.now) (mask_by self) text.now }
    {
        match self.construct {
            None => match begun_in(constructs, text) {
                Some(construct) => Mask {
                    construct: Some(construct),
                    left: construct.open.len(),
                    closes: false,
                },
                None => Mask::OUTSIDE,
            },
            Some(construct) if self.left == 0 && text.starts_with(construct.close.as_bytes()) => {
                Mask {
                    construct: Some(construct),
                    left: construct.close.len(),
                    closes: true,
                }
            }
            Some(_) => self,
        }
    }

    // The replacement of a byte.
    fn masked_byte(self, byte: u8) -> u8
        ensures { result ≡ masked_byte (mask_by self) byte }
    {
        match self.construct {
            None => byte,
            Some(construct) if construct.is_value => b'a' + byte % 26,
            Some(_) => b' ',
        }
    }

    // After a byte.
    fn passed(self) -> Mask
        ensures { mask_by result ≡ passed (mask_by self) }
    {
        if self.closes && self.left <= 1 {
            return Mask::OUTSIDE;
        }
        Mask {
            left: self.left.saturating_sub(1),
            ..self
        }
    }
}

/// A text with its constructs masked, byte for byte: a value as letters, which are the same where it is, and each other one as
/// spaces. One that isn't closed ends with the text.
#[tactic(auto, unfolding(crate::specs::Templates::masked_from))]
pub fn masked(alloc: Global, template: Template, text: &[u8]) -> Result<Vec<u8>, AllocError>
    ensures { IfOk result (λ bytes. bytes.items ≡ masked template text.now) }
{
    let constructs = constructs_of(template);
    let mut bytes = Vec::new(alloc);
    let mut mask = Mask::OUTSIDE;
    for (i, byte) in text.iter().enumerate() {
        mask = mask.settled(constructs, &text[i..]);
        bytes.push(mask.masked_byte(*byte))?;
        mask = mask.passed();
    }
    Ok(bytes)
}
