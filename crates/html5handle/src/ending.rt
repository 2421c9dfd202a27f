//! The end of a page whose tokens are recorded.
ghost use Rattle.std.specs.Prelude.{◌≡◌, true, string_bytes, IfErr, IfOk};
ghost use Rattle.html5handle.specs.Calls.{EndDecodedSays, EndSays, EndSaysBy, error_status, fed_status};
ghost use Rattle.html5feed.specs.Feed.{reply_in};
ghost use Rattle.html5session.specs.Intake.{is_decoding};

use crate::slot::{status_of_answer, status_of_error};
use crate::status;
use html5records::record_sink::PausedAt;
use html5session::{RecordSession, SessionError};
use markup5ever::tokenizer_result::TokenizerResult;
use std::alloc::Global;

// Ends a page that was read.
fn end_read(session: RecordSession<Global>) -> (RecordSession<Global>, u32)
    ensures { EndSays session result.0 result.1 }
{
    let (session, result) = session.end();
    match result {
        Ok(()) => (session, status::DONE),
        Err(error) => (session, status_of_error(error)),
    }
}

// The status of the rest of a page's text, which was read or refused.
fn status_of_rest(rest: &Result<TokenizerResult<PausedAt, String<Global>>, SessionError>) -> u32
    ensures ok { IfOk rest.now (λ answer. result ≡ fed_status (reply_in string_bytes answer)) }
    ensures err { IfErr rest.now (λ error. result ≡ error_status error) }
{
    match rest {
        Ok(answer) => status_of_answer(answer),
        Err(error) => status_of_error(*error),
    }
}

// Ends a page that is decoded: the rest of its text is read first, up to a pause.
fn end_decoded(session: RecordSession<Global>) -> (RecordSession<Global>, u32)
    requires { is_decoding session.intake ≡ true }
    ensures { EndDecodedSays session result.0 result.1 }
{
    let (session, rest) = session.end_bytes();
    let status = status_of_rest(&rest);
    if status != status::DONE {
        return (session, status);
    }
    end_read(session)
}

/// Ends a page, and says the status.
pub fn end_session(session: RecordSession<Global>) -> (RecordSession<Global>, u32)
    ensures { EndSaysBy (is_decoding session.intake) session result.0 result.1 }
{
    if session.is_decoding() {
        end_decoded(session)
    } else {
        end_read(session)
    }
}
