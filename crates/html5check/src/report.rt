//! How what is found is printed.
use crate::lines::lines_of;
use crate::located::Located;
use std::alloc::{AllocError, Global};

/// A way to print what is found in pages.
pub trait Report: Drop {
    ghost use Rattle.std.specs.Prelude.{◌≡◌, ℕ, Bool, List, [], IfOk, map};
    ghost use Rattle.html5check.specs.Located.{Located, located_by};

    // What is printed of what is found in a file of this name, where something was found before or not, and what in the
    // end. Of nothing nothing is printed.
    ghost printed: { Bool → List ℕ → List Located → List ℕ };

    ghost ended: { Bool → List ℕ };

    ghost nothing: { (found : Bool) (file : List ℕ) → printed found file [] ≡ [] };

    /// What is printed of what is found in a file of this name, where something was found before or not.
    fn print(
        alloc: Global,
        has_found: bool,
        file: &str,
        found: &[Located<'_>],
    ) -> Result<Vec<u8>, AllocError>
        ensures { IfOk result (λ bytes. bytes.items ≡ printed has_found file.now (map located_by found.now)) };

    /// What is printed in the end, where something was found or not.
    fn end(alloc: Global, has_found: bool) -> Result<Vec<u8>, AllocError>
        ensures { IfOk result (λ bytes. bytes.items ≡ ended has_found) };
}

/// For people: a line each.
#[derive(Drop)]
pub struct Lines;

impl Report for Lines {
    ghost use Rattle.std.specs.Prelude.{[]};
    ghost use Rattle.html5check.specs.Lines.{lines_of};
    ghost use Rattle.html5check.specs.Laws.{no_lines};

    ghost printed = { λ found file located. lines_of file located };

    ghost ended = { λ found. [] };

    ghost nothing = { λ found file. no_lines file };

    fn print(
        alloc: Global,
        _has_found: bool,
        file: &str,
        found: &[Located<'_>],
    ) -> Result<Vec<u8>, AllocError> {
        lines_of(alloc, file, found)
    }

    fn end(alloc: Global, _has_found: bool) -> Result<Vec<u8>, AllocError> {
        Ok(Vec::new(alloc))
    }
}
