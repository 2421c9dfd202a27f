//! The error for a word that names nothing: what it may have been meant for.
use std::alloc::{AllocError, Allocator, Global};
use strsim::jaro;
use thiserror::Error;

// How like a word a name is that is suggested, from 0 to 1 as Jaro measures it, is more than this.
const LIKE: f64 = 0.8;

/// That a word names nothing of a kind, as an option, with a name that is like it if there is one.
#[derive(Clone, Copy, Debug, Error)]
pub enum NoSuch<'n> {
    #[error("no such {kind}; did you mean {name}?")]
    Like { kind: &'n str, name: &'n str },
    #[error("no such {kind}; try --help")]
    Unlike { kind: &'n str },
}

// The name that is most like a word, where one is like it.
fn nearest<'n, A: Allocator + Copy>(
    alloc: A,
    names: &[&'n str],
    word: &str,
) -> Result<Option<&'n str>, AllocError> {
    let mut found = None;
    let mut best = LIKE;
    for name in names {
        let likeness = jaro(alloc, name, word)?;
        if best < likeness {
            found = Some(*name);
            best = likeness;
        }
    }
    Ok(found)
}

/// The error for a word that is not among these names.
pub fn no_such<'n>(alloc: Global, kind: &'n str, names: &[&'n str], word: &str) -> NoSuch<'n> {
    match nearest(alloc, names, word) {
        Ok(Some(name)) => NoSuch::Like { kind, name },
        _ => NoSuch::Unlike { kind },
    }
}
