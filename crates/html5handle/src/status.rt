//! What a call answers.

/// It was done: of a feed, all that was handed in was read.
pub const DONE: u32 = 0;

/// The tokenizer pauses after `</script>`: the rest waits.
pub const SCRIPT: u32 = 1;

/// The tokenizer pauses after `<meta charset=..>`: the rest waits.
pub const ENCODING: u32 = 2;

/// A growth was refused.
pub const NO_MEMORY: u32 = 3;

/// The bytes are not UTF-8.
pub const NOT_UTF8: u32 = 4;

/// The page ends inside a character.
pub const CUT: u32 = 5;

/// The page ends while text waits.
pub const WAITING: u32 = 6;

/// The page has ended, or an earlier call failed.
pub const OVER: u32 = 7;

/// The handle is closed.
pub const CLOSED: u32 = 8;

/// A number in the options names nothing.
pub const BAD_OPTION: u32 = 9;

/// The bytes of the policy are not UTF-8.
pub const POLICY_NOT_UTF8: u32 = 11;

/// The tokenizer pauses after a tag to which the caller replies: the rest waits.
pub const TAG: u32 = 12;

/// A tag or another item is open, so no state can be set.
pub const ITEM_OPEN: u32 = 13;

/// More bytes would be held than the limit: the piece was not taken.
pub const LIMIT: u32 = 14;

/// Bytes were fed already, so it can't be set in which encoding they are.
pub const BEGUN: u32 = 15;

/// The first word of a line is not a rule.
pub const UNKNOWN_RULE: u32 = 16;

/// A name is missing after the rule.
pub const NO_NAME: u32 = 17;

/// The rule takes fewer names.
pub const WORD_TOO_MANY: u32 = 18;

/// Invalid tag name.
pub const ELEMENT_NAME: u32 = 19;

/// Invalid attribute name.
pub const ATTRIBUTE_NAME: u32 = 20;

/// The content of such an element is always dropped.
pub const HIDES_CONTENT: u32 = 21;

/// Such an element acts on the page around it.
pub const ACTS_ON_PAGE: u32 = 22;

/// An element is both allowed and hidden.
pub const ALLOWED_AND_HIDDEN: u32 = 23;

/// Such an attribute runs scripts, or holds no single address.
pub const NEVER_KEPT: u32 = 24;

/// Not a scheme in lower case.
pub const SCHEME_NAME: u32 = 25;

/// An address of such a scheme runs its content.
pub const RUNS_ADDRESS: u32 = 26;

/// The policy makes a tree, and the element has no place in it.
pub const NO_PLACE: u32 = 27;

/// The depth is not a number from 1 to 4096.
pub const BAD_DEPTH: u32 = 28;

/// A word of `rel` has another character than letters, digits and hyphens.
pub const REL_WORD: u32 = 29;
