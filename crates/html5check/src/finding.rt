//! What is found.
ghost use Rattle.std.specs.Prelude.{◌≡◌};
ghost use Rattle.html5check.specs.Faults.{fault_code};

use html5errors::ErrorCode;

/// What is wrong.
#[derive(Clone, Copy, Debug, PartialEq, Eq)]
pub enum Fault {
    /// A parse error of this code.
    Parse(ErrorCode),
    /// A parse error without a code. The subject is its message.
    Uncoded,
    /// An end tag whose element isn't open. The subject is its name.
    EndTagWithoutStart,
    /// An end tag of a void element, which has none.
    EndTagOfVoidElement,
    /// A start tag whose element is left open: by the end of an element round it, or of the text.
    UnclosedElement,
    /// A start tag that ends in `/>` and ends no element.
    SelfClosingElement,
    /// An id that an element before has. The subject is the id.
    DuplicateId,
    /// A name that is a slip of an element's.
    MisspelledElement,
    /// A name that is a slip of an attribute's.
    MisspelledAttribute,
}

impl Fault {
    /// Its code, in the form of the standard's codes.
    #[tactic(auto, unfolding(crate::specs::Faults::fault_code))]
    pub fn code(self) -> &'static str
        ensures { result.now ≡ fault_code self }
    {
        match self {
            Fault::Parse(code) => code.as_str(),
            Fault::Uncoded => "parse-error",
            Fault::EndTagWithoutStart => "end-tag-without-start",
            Fault::EndTagOfVoidElement => "end-tag-of-void-element",
            Fault::UnclosedElement => "unclosed-element",
            // The standard's own, of "Parse errors" in tree construction.
            Fault::SelfClosingElement => "non-void-html-element-start-tag-with-trailing-solidus",
            Fault::DuplicateId => "duplicate-id",
            Fault::MisspelledElement => "misspelled-element",
            Fault::MisspelledAttribute => "misspelled-attribute",
        }
    }
}

/// Something wrong in a text, and where: from a byte up to another one.
#[derive(Clone, Copy, Debug, PartialEq, Eq)]
pub struct Finding<'t> {
    pub begin: usize,
    pub end: usize,
    pub fault: Fault,
    /// The name, the id or the message that is meant, or nothing.
    pub subject: &'t str,
    /// The name that a misspelled one was meant for.
    pub meant: Option<&'static str>,
}
