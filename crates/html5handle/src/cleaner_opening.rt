//! A page that is cleaned, at its start.
ghost use Rattle.std.specs.Prelude.{◌≡◌, IfErr, IfOk, OnOk};
ghost use Rattle.std.specs.Str.{IsUtf8};
ghost use Rattle.html5handle.specs.CleanerCalls.{IsCleanerStart, PolicyFails, PolicyGiven, fault_place, fault_status};
ghost use Rattle.html5handle.specs.Slots.{cleaner_in};

use crate::rule_status::rule_status;
use crate::slot::PageSlot;
use crate::status;
use html5cleaning::CleaningSession;
use html5entities::standard_references;
use html5policy::{Policy, RuleError};
use std::alloc::Global;
use std::str;

/// Why there is no policy, or no page.
#[derive(Clone, Copy, Debug, PartialEq, Eq)]
pub enum PolicyFault {
    /// A growth was refused.
    Memory,
    /// The text of the policy has its first fault in this line, of which this is the status.
    BadRule { line: u64, status: u32 },
    /// The bytes of the policy stop being UTF-8 at this place.
    NotUtf8 { valid_up_to: u64 },
}

impl PolicyFault {
    /// The status that C receives.
    pub fn status(self) -> u32
        ensures { result ≡ fault_status self }
    {
        match self {
            PolicyFault::Memory => status::NO_MEMORY,
            PolicyFault::BadRule { line: _, status } => status,
            PolicyFault::NotUtf8 { .. } => status::POLICY_NOT_UTF8,
        }
    }

    /// Where the fault is: a line, or a byte.
    pub fn place(self) -> u64
        ensures { result ≡ fault_place self }
    {
        match self {
            PolicyFault::Memory => 0,
            PolicyFault::BadRule { line, status: _ } => line,
            PolicyFault::NotUtf8 { valid_up_to } => valid_up_to,
        }
    }
}

// The policy of a text, or the standard one if it has no bytes.
fn policy_of(alloc: Global, rules: &[u8]) -> Result<Policy<Global>, PolicyFault>
    ensures given { IfOk result (λ policy. PolicyGiven rules.now policy) }
    ensures utf8 { OnOk result (IsUtf8 rules.now) }
    ensures refused { IfErr result (λ fault. PolicyFails rules.now fault) }
{
    let text = match str::from_utf8(rules) {
        Ok(text) => text,
        Err(error) => {
            return Err(PolicyFault::NotUtf8 {
                valid_up_to: error.valid_up_to() as u64,
            });
        }
    };
    if text.is_empty() {
        return match Policy::standard(alloc) {
            Ok(policy) => Ok(policy),
            Err(_) => Err(PolicyFault::Memory),
        };
    }
    match Policy::parse(alloc, text) {
        Ok(policy) => Ok(policy),
        Err(error) if error.fault == RuleError::Memory => Err(PolicyFault::Memory),
        Err(error) => Err(PolicyFault::BadRule {
            line: error.line,
            status: rule_status(error.fault),
        }),
    }
}

/// A page that is cleaned by the policy of a text, at its start and in its box.
pub fn cleaner_slot_of(alloc: Global, rules: &[u8]) -> Result<Box<PageSlot, Global>, PolicyFault>
    ensures starts { IfOk result (λ slot. IsCleanerStart (cleaner_in slot.value) rules.now) }
    ensures refused { IfErr result (λ fault. PolicyFails rules.now fault) }
{
    // A match in place of `?`: split for the proof.
    let policy = match policy_of(alloc, rules) {
        Ok(policy) => policy,
        Err(fault) => return Err(fault),
    };
    let Ok(references) = standard_references(alloc) else {
        return Err(PolicyFault::Memory);
    };
    let session = CleaningSession::new(alloc, references, policy);
    match Box::new(alloc, PageSlot::Cleaner(session)) {
        Ok(slot) => Ok(slot),
        Err(_) => Err(PolicyFault::Memory),
    }
}
