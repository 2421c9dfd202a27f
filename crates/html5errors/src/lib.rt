//! Parse errors by the standard's codes.
//!
//! `error_code` takes the text of an error that the tokenizer sends, where errors are not exact. It answers the code
//! that the standard's "Parse errors" has for it, as `missing-attribute-value`. By proof this is the code in the tables
//! of specs/Codes. They go by the state and the character seen there (`code_in`), by the state where the end was seen
//! (`end_code_in`), or by a message that names nothing of the text (`fixed_code`). Each error that is sent without
//! exact errors is one of these (`errors_have_forms`). `as_str` and `Display` write the code as the standard does.
//!
//! Tested, and not proved: that these tables are the standard's. Nothing is promised of a text that is not an error's.
//!
//! Where the tokenizer's errors are not the standard's:
//!
//! - With exact errors a text names no state, and no code is known of a character or of the end.
//! - Of a numeric reference to what no character should be the message doesn't say why, and there is no code.
//! - `<![CDATA[` outside foreign content is an incorrectly opened comment. The standard has a code of its own for it.
//! - `"`, `'`, `<`, `=` and a grave accent in a value without quotes are reported with exact errors alone. So are
//!   controls and noncharacters in the text, which have no code.
//! - `<?` begins a processing instruction, and no bogus comment. That it begins is no error; that it has no `>` is one,
//!   without a code.
//! - A repeated attribute is reported where the next one begins or the tag ends, so after the errors of its value.
#![tactic(auto)]

mod codes;
mod laws;
mod messages;
mod state_names;
mod tables;

pub use crate::codes::ErrorCode;
pub use crate::laws::errors_have_forms;
pub use crate::messages::error_code;
