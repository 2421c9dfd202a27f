//! A policy, as the settings of a filter.
use html5policy::{Policy, PolicyError};
use html5programs::{Settings, Words};
use std::alloc::{AllocError, Global};
use thiserror::Error;

/// A policy, by which a filter goes.
#[derive(Drop)]
pub struct PolicySettings {
    pub policy: Policy,
}

/// Why there is no policy.
#[derive(Clone, Copy, Debug, Error)]
pub enum SettingsError {
    #[error("out of memory")]
    Memory,
    #[error("{0}")]
    Policy(PolicyError),
}

impl Settings for PolicySettings {
    ghost use Rattle.std.specs.Prelude.{option_map};
    ghost use Rattle.html5cleaner.specs.Cleaning.{policy_by};
    ghost use Rattle.html5programs.specs.Words.{settings_asked};

    type Fault = SettingsError;

    const OPTION: &'static str = "--policy";

    ghost file = { settings_asked };

    ghost said = { λ words text. option_map (λ policy. record { policy = policy }) (policy_by text) };

    fn file_of<'w>(words: &Words<'w>) -> Option<&'w str> {
        words.value("--policy")
    }

    fn of_words(
        alloc: Global,
        _words: &Words<'_>,
        text: Option<&str>,
    ) -> Result<PolicySettings, SettingsError> {
        let Some(text) = text else {
            return match Policy::standard(alloc) {
                Ok(policy) => Ok(PolicySettings { policy }),
                Err(AllocError) => Err(SettingsError::Memory),
            };
        };
        match Policy::parse(alloc, text) {
            Ok(policy) => Ok(PolicySettings { policy }),
            Err(error) => Err(SettingsError::Policy(error)),
        }
    }
}
