//! What words ask of a check.
use crate::template::{Template, template_named};
use html5programs::{Settings, Words};
use std::alloc::Global;
use thiserror::Error;

/// The template language that pages are in, if they are in one.
#[derive(Clone, Copy, Debug, PartialEq, Eq)]
pub struct CheckSettings {
    pub template: Option<Template>,
}

/// A name of no template language.
#[derive(Clone, Copy, Debug, Error)]
#[error("no such template language: jinja, mustache or erb")]
pub struct UnknownTemplate;

impl Settings for CheckSettings {
    ghost use Rattle.std.specs.Prelude.{None};
    ghost use Rattle.html5check.specs.Asked.{check_settings_said};

    type Fault = UnknownTemplate;

    const OPTION: &'static str = "--template";

    ghost file = { λ words. None };

    ghost said = { check_settings_said };

    fn file_of<'w>(_words: &Words<'w>) -> Option<&'w str> {
        None
    }

    fn of_words(
        _alloc: Global,
        words: &Words<'_>,
        _text: Option<&str>,
    ) -> Result<CheckSettings, UnknownTemplate> {
        let Some(name) = words.value("--template") else {
            return Ok(CheckSettings { template: None });
        };
        match template_named(name) {
            Some(template) => Ok(CheckSettings {
                template: Some(template),
            }),
            None => Err(UnknownTemplate),
        }
    }
}
