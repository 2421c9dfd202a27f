//! Why a rule of a policy is refused, as a status for C.
ghost use Rattle.std.specs.Prelude.{◌≡◌};
ghost use Rattle.html5handle.specs.PolicyCalls.{rule_status};

use crate::status;
use html5policy::RuleError;

/// The status of a rule that was refused.
pub fn rule_status(fault: RuleError) -> u32
    ensures { result ≡ rule_status fault }
{
    match fault {
        RuleError::UnknownRule => status::UNKNOWN_RULE,
        RuleError::NoName => status::NO_NAME,
        RuleError::WordTooMany => status::WORD_TOO_MANY,
        RuleError::ElementName => status::ELEMENT_NAME,
        RuleError::AttributeName => status::ATTRIBUTE_NAME,
        RuleError::HidesContent => status::HIDES_CONTENT,
        RuleError::ActsOnPage => status::ACTS_ON_PAGE,
        RuleError::AllowedAndHidden => status::ALLOWED_AND_HIDDEN,
        RuleError::NeverKept => status::NEVER_KEPT,
        RuleError::SchemeName => status::SCHEME_NAME,
        RuleError::RunsAddress => status::RUNS_ADDRESS,
        RuleError::NoPlace => status::NO_PLACE,
        RuleError::Depth => status::BAD_DEPTH,
        RuleError::RelWord => status::REL_WORD,
        RuleError::Memory => status::NO_MEMORY,
    }
}
