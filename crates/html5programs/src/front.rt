//! The name of a file in front of what is printed of it.
ghost use Rattle.std.specs.Prelude.{◌≡◌, ◌++◌, IfErr, OnErr, OnOk, is_some, option_map};
ghost use Rattle.html5programs.specs.Fronts.{front_at_start, front_named, in_front};

use html5stream::StreamError;
use std::alloc::{AllocError, Allocator, Global};
use std::marker::Model;

/// The name of the file that is read, where it stands in front of what is printed of it, or none.
#[derive(Drop)]
pub struct Front {
    name: Option<String>,
}

impl Model for Front {
    ghost use Rattle.std.specs.Prelude.{ℕ, List, Option, option_map, string_bytes};

    ghost Value = { Option (List ℕ) };

    ghost view = { λ f. option_map string_bytes f.name };
}

impl Front {
    /// Before the first file.
    pub fn new(alloc: Global, is_shown: bool) -> Front
        ensures { result ≡ front_at_start is_shown }
    {
        let name = if is_shown {
            Some(String::new(alloc))
        } else {
            None
        };
        Front { name }
    }

    /// Where a file begins.
    pub fn name_file(&mut self, alloc: Global, file: &str) -> Result<(), StreamError>
        ensures ok { OnOk result (self.new ≡ front_named file.now self.old) }
        ensures memory { IfErr result (λ error. error ≡ StreamError.Memory) }
        ensures err { OnErr result (self.new ≡ self.old) }
    {
        if self.name.is_some() {
            let Ok(name) = String::from_str(alloc, file) else {
                return Err(StreamError::Memory);
            };
            self.name = Some(name);
        }
        Ok(())
    }

    /// Whether names stand in front.
    pub fn is_shown(&self) -> bool
        ensures { result ≡ is_some self.now }
    {
        self.name.is_some()
    }

    /// The name, where names stand in front.
    pub fn name(&self) -> Option<&str>
        ensures { option_map (λ name. name.now) result ≡ self.now }
    {
        match &self.name {
            Some(name) => Some(name.as_str()),
            None => None,
        }
    }

    /// Appends the text in front of a line.
    pub fn push_to<A: Allocator>(&self, line: &mut Vec<u8, A>) -> Result<(), AllocError>
        ensures { OnOk result (line.new.items ≡ line.old.items ++ in_front self.now) }
    {
        if let Some(name) = &self.name {
            line.extend_from_slice(name.as_bytes())?;
            line.extend_from_slice(b":")?;
        }
        Ok(())
    }
}
