//! The words of the command line.
ghost use Rattle.std.specs.Prelude.{◌≡◌, ◌<◌, ◌^◌, ◌↔◌, IfSome, IsSome, map, string_bytes};
ghost use Rattle.std.specs.Option.{option_map};
ghost use Rattle.html5feed.specs.Starting.{CanStart};
ghost use Rattle.html5table.specs.Listed.{listed};
ghost use Rattle.html5cli.specs.Settings.{said_by, unsaid, state_said, cut_said, settings_said};

use crate::settings::Settings;
use html5ever_interface::states::{RawKind, State};
use html5table::{has_form, profile};
use std::alloc::Allocator;

/// The settings that the words after the program's name say, if they are ones that it knows. Of an
/// option that is given more than once the last counts.
pub fn settings_of<A: Allocator>(words: &[String<A>]) -> Option<Settings<'_>>
    ensures said { option_map said_by result ≡ settings_said (map string_bytes words.now) }
    ensures state { IfSome result (λ settings. CanStart settings.initial_state) }
    ensures cut { IfSome result (λ settings. settings.cut < 2 ^ 32) }
    ensures table { IfSome result (λ settings. IsSome (listed settings.table.now)) }
{
    let mut settings = unsaid();
    let mut words = words.iter();
    while let Some(word) = words.next() {
        match word.as_str() {
            "--exact" => settings.exact_errors = true,
            "--keep-bom" => settings.discard_bom = false,
            "--foreign" => settings.foreign = true,
            "--state" => settings.initial_state = Some(state_of(words.next()?)?),
            "--last" => settings.last = Some(words.next()?),
            "--cut" => settings.cut = cut_of(words.next()?)?,
            "--table" => settings.table = list_of(words.next()?)?,
            _ => return None,
        }
    }
    Some(settings)
}

// The settings before the first word.
fn unsaid() -> Settings<'static>
    ensures said { said_by result ≡ unsaid }
    ensures table { IsSome (listed result.table.now) }
{
    Settings {
        exact_errors: false,
        discard_bom: true,
        initial_state: None,
        last: None,
        foreign: false,
        cut: 0,
        table: profile(),
    }
}

// The state of that name.
#[tactic(auto, unfolding(crate::specs::Settings::state_said))]
fn state_of(name: &str) -> Option<State>
    ensures said { result ≡ state_said name.now }
    ensures state { CanStart result }
{
    match name {
        "data" => Some(State::Data),
        "plaintext" => Some(State::Plaintext),
        "rcdata" => Some(State::RawData(RawKind::Rcdata)),
        "rawtext" => Some(State::RawData(RawKind::Rawtext)),
        "script" => Some(State::RawData(RawKind::ScriptData)),
        "cdata" => Some(State::CdataSection),
        _ => None,
    }
}

// The text, if it has the form of a table's list.
fn list_of(text: &str) -> Option<&str>
    ensures form { IsSome result ↔ IsSome (listed text.now) }
    ensures said { IfSome result (λ list. list.now ≡ text.now) }
{
    if !has_form(text) {
        return None;
    }
    Some(text)
}

// A number of characters in decimal digits: at least 1, and below 2 ^ 32.
#[tactic(auto, unfolding(crate::specs::Settings::cut_said))]
fn cut_of(digits: &str) -> Option<usize>
    ensures said { result ≡ cut_said digits.now }
    ensures fits { IfSome result (λ cut. cut < 2 ^ 32) }
{
    if !digits.bytes().all(|byte| byte.is_ascii_digit()) {
        return None;
    }
    let Ok(cut) = digits.parse::<u32>() else {
        return None;
    };
    if cut == 0 {
        return None;
    }
    Some(cut as usize)
}
