//! The runs of a text: characters of one class that stand together.
ghost use Rattle.std.specs.Prelude.{◌≡◌, ◌≢◌, true, false, ◌<◌, ◌≤◌, ◌++◌, [], length, take, get_or, IfNone, IfSome};
ghost use Rattle.std.specs.Str.{IsUtf8};
ghost use Rattle.tree_builder.specs.Characters.{AllOf, BeginsOther, IsOf};
ghost use Rattle.tree_builder.specs.declared.characters.TextClass.{TextClass as ClassOf};

use crate::characters::TextClass;

/// A run of characters of one class, and what follows it.
#[derive(Clone, Copy, Debug)]
pub struct TextRun<'t> {
    pub class: TextClass,
    pub text: &'t str,
    pub rest: &'t str,
}

impl TextClass {
    // Whether a byte is of the class.
    fn holds(self, byte: u8) -> bool
        ensures yes { result ≡ true → IsOf self byte }
        ensures no { result ≡ false → (other : ClassOf) × ((IsOf other byte) × (other ≢ self)) }
    {
        TextClass::of(byte) == self
    }
}

// How many bytes of a class stand at the front.
pub(crate) fn run_len(bytes: &[u8], class: TextClass) -> usize
    ensures within { result ≤ length bytes.now }
    ensures all { AllOf class (take result bytes.now) }
    ensures ends { result < length bytes.now → (other : ClassOf) × ((IsOf other (get_or bytes.now result 0)) × (other ≢ class)) }
{
    for at in 0..bytes.len() {
        if !class.holds(bytes[at]) {
            return at;
        }
    }
    bytes.len()
}

/// The run with which a text begins, unless the text is empty.
pub fn first_run(text: &str) -> Option<TextRun<'_>>
    ensures none { IfNone result (text.now ≡ []) }
    ensures some { IfSome result (λ run. 0 < length run.text.now) }
    ensures all { IfSome result (λ run. AllOf run.class run.text.now) }
    ensures whole { IfSome result (λ run. run.text.now ++ run.rest.now ≡ text.now) }
    ensures ends { IfSome result (λ run. BeginsOther run.class run.rest.now) }
    ensures utf8 { IfSome result (λ run. IsUtf8 run.rest.now) }
{
    if text.is_empty() {
        return None;
    }
    let bytes = text.as_bytes();
    let class = TextClass::of(bytes[0]);
    let (text, rest) = text.split_at(run_len(bytes, class));
    Some(TextRun { class, text, rest })
}
