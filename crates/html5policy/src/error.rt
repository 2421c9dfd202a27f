//! Why a policy was not made.
ghost use Rattle.std.specs.Prelude.{◌≡◌};
ghost use Rattle.html5policy.specs.declared.error.RuleError.TheVariants.{Memory};

use std::alloc::AllocError;
use thiserror::Error;

/// Why a policy did not take a rule.
#[derive(Clone, Copy, Debug, PartialEq, Eq, Error)]
pub enum RuleError {
    /// The first word of a line is not a rule.
    #[error("unknown rule")]
    UnknownRule,
    /// A name is missing after the rule.
    #[error("missing name after the rule")]
    NoName,
    /// The rule takes no name.
    #[error("too many words after the rule")]
    WordTooMany,
    /// Invalid tag name.
    #[error("invalid tag name")]
    ElementName,
    /// Invalid attribute name.
    #[error("invalid attribute name")]
    AttributeName,
    /// The content of an element of this name is always dropped.
    #[error("the element can't be allowed: its content is always dropped")]
    HidesContent,
    /// An element of this name reloads the page, changes what its addresses are relative to, loads
    /// documents, or is read as the page's own or as another.
    #[error("the element can't be allowed: it affects the page around it")]
    ActsOnPage,
    #[error("the element is both allowed and hidden")]
    AllowedAndHidden,
    /// An attribute of this name runs scripts, what it holds is no single address, or it changes what
    /// addresses are relative to.
    #[error("the attribute can't be allowed: it runs scripts or isn't a single URL")]
    NeverKept,
    /// Not a scheme, or not in lower case.
    #[error("invalid scheme: it must be lower case")]
    SchemeName,
    /// An address of this scheme runs its content, or names what a page made itself.
    #[error("the scheme can't be allowed: its URLs run their content")]
    RunsAddress,
    /// By the rule `tree` an element has a place in the tree: it is one of the 94 of which html5tree speaks.
    #[error("the element can't be allowed with the rule tree: it has no place in the tree")]
    NoPlace,
    /// The depth is not a number from 1 to 4096.
    #[error("the depth must be a number from 1 to 4096")]
    Depth,
    /// A word of `rel` has another character than letters and digits of ASCII and hyphens.
    #[error("words of rel can only have letters, digits and hyphens")]
    RelWord,
    /// A growth was refused.
    #[error("out of memory")]
    Memory,
}

impl From<AllocError> for RuleError {
    ghost from_gives = { λ _ error. error ≡ Memory };

    fn from(_error: AllocError) -> RuleError {
        RuleError::Memory
    }
}

/// The first fault of a policy's text, and the line where it stands, counted from 1.
#[derive(Clone, Copy, Debug, PartialEq, Eq, Error)]
#[error("line {line}: {fault}")]
pub struct PolicyError {
    pub line: u64,
    pub fault: RuleError,
}
