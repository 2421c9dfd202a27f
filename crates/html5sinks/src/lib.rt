//! Sinks that do the common part of a sink's work, and hand the rest to a handler of yours.
//!
//! - `tags::TagsOnly` hands tags on, and nothing else.
//! - `text_runs::TextRuns` joins texts, and hands each whole run on with the token that ends it. A parse
//!   error ends no run: it is handed on at once, with an empty run, and the text goes on after it.
//!
//! A handler has a state, says what a tag or a run makes of it, and takes them by one method. There is
//! no law to prove. This one counts links, and `TagsOnly::new(Links { count: 0 })` is a sink of it:
//!
//! ```
//! #[derive(Drop)]
//! struct Links {
//!     count: u64,
//! }
//!
//! impl<A: Allocator> TagHandler<Tag<A>> for Links {
//!     ghost use Rattle.std.specs.Prelude.{ℕ, ◌+◌, codes, if◌then◌else◌};
//!     ghost use Rattle.html5sinks.specs.Tags.{is_start_of};
//!
//!     ghost State = { ℕ };
//!
//!     ghost state = { λ links. links.count };
//!
//!     ghost step = { λ count tag line. if is_start_of tag (codes "a") then count + 1 else count };
//!
//!     fn take_tag(&mut self, tag: Tag<A>, _line_number: u64) -> Result<(), SinkFault> {
//!         if is_start_of(&tag, "a") {
//!             self.count = self.count.checked_add(1).ok_or(SinkFault)?;
//!         }
//!         Ok(())
//!     }
//! }
//! ```
//!
//! Such a handler does not reply to tags. Its sink gives the replies of `replies::standard_reply`, so
//! that the text after a start tag is read as the standard reads it after that element. After `title`
//! and `textarea` that is RCDATA, after `style`, `xmp`, `iframe`, `noembed` and `noframes` RAWTEXT,
//! after `script` script data, after `plaintext` plain text, and after any other tag markup. The
//! tokenizer is never paused. A handler that is to reply otherwise is a `tags::ReplyingTagHandler` or a
//! `text_runs::ReplyingTokenHandler`.
#![tactic(auto)]

pub mod pausing;
pub mod replies;
pub mod tags;
pub mod text_runs;
