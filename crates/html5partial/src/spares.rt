//! Memory of attributes that were sent, which the attributes of later tags take.

ghost use Rattle.std.specs.Prelude.{◌≡◌, [], IfOk, string_bytes};

use markup5ever::interface::{Attribute, LocalName, QualName};
use std::alloc::{AllocError, Allocator, Global};

/// Of how many attributes of a tag the texts are kept.
const MANY: usize = 16;

/// From more bytes than this on, the memory of a text is freed.
const LONG: usize = 256;

/// Texts that are kept for their memory alone.
#[derive(Drop)]
pub struct Spares<A: Allocator = Global> {
    texts: Vec<String<A>, A>,
}

impl<A: Allocator + Copy> Spares<A> {
    /// No texts.
    pub fn new(alloc: A) -> Spares<A> {
        Spares {
            texts: Vec::new(alloc),
        }
    }

    /// An empty text, with the memory of one that was kept, if there is one.
    pub fn take(&mut self, alloc: A) -> Result<String<A>, AllocError>
        ensures { IfOk result (λ text. string_bytes text ≡ []) }
    {
        let Some(mut text) = self.texts.pop() else {
            // Room for those to come, so that none is refused when it is kept.
            self.texts.reserve(2 * MANY)?;
            return Ok(String::new(alloc));
        };
        text.clear();
        Ok(text)
    }
}

impl<A: Allocator> Spares<A> {
    // Keeps a text, if it is short and there is room.
    fn keep(&mut self, text: String<A>) {
        if text.capacity() <= LONG && self.texts.len() < self.texts.capacity() {
            let _ = self.texts.push(text);
        }
    }

    /// Keeps the texts of attributes. Those that are left are not kept.
    #[inline(never)]
    pub fn keep_texts(&mut self, attributes: &mut Vec<Attribute<A>, A>) {
        for _ in 0..MANY {
            let Some(Attribute { name, value }) = attributes.pop() else {
                return;
            };
            let QualName {
                prefix: _,
                ns: _,
                local: LocalName(name),
            } = name;
            self.keep(value);
            self.keep(name);
        }
    }
}
