//! What the text of a comment says of the next character. Its end says which of the standard's ten
//! comment states is open.
#![tactic(auto, unfolding(html5reading::specs::Comment::comment_state, html5reading::specs::Comment::ends_in_mark, html5reading::specs::Comment::ends_comment, html5reading::specs::Comment::comment_content))]

ghost use Rattle.std.specs.Prelude.{◌≡◌, ◌==◌, ◌&&◌, not, take};
ghost use Rattle.std.specs.Str.{IsCharBoundary};
ghost use Rattle.html5reading.specs.Characters.{greater_than};
ghost use Rattle.html5partial.specs.CurrentTag.{is_comment_state};
ghost use Rattle.html5reading.specs.Comment.{ends_in, comment_state, ends_in_mark, ends_comment, comment_content};

use html5ever_interface::states::State;

/// Whether the text ends so.
pub fn ends_in(text: &str, word: &[u8]) -> bool
    ensures { result ≡ ends_in text.now word.now }
{
    text.as_bytes().ends_with(word)
}

/// The state that an error names, where `after_dashes` is that after two dashes or more.
pub fn state_in_comment(after_dashes: State, text: &str) -> State
    ensures { result ≡ comment_state after_dashes text.now }
{
    if text.is_empty() {
        return State::CommentStart;
    }
    if text == "-" {
        return State::CommentStartDash;
    }
    if ends_in(text, b"--!") {
        return State::CommentEndBang;
    }
    if ends_in(text, b"--") {
        return after_dashes;
    }
    if ends_in(text, b"-") {
        return State::CommentEndDash;
    }
    State::Comment
}

/// Whether the text ends in a mark: a `<!--` within the comment.
pub fn ends_in_mark(text: &str) -> bool
    ensures { result ≡ ends_in_mark text.now }
{
    ends_in(text, b"<!--")
}

/// Whether the character stands after a mark, and is an error there.
pub fn is_after_mark(text: &str, c: char) -> bool
    ensures { result ≡ ends_in_mark text.now && not (c == greater_than) }
{
    ends_in_mark(text) && c != '>'
}

/// Whether `>` ends the comment after this text.
pub fn ends_comment(text: &str) -> bool
    ensures { result ≡ ends_comment text.now }
{
    text.is_empty() || text == "-" || ends_in(text, b"--") || ends_in(text, b"--!")
}

/// The length of the comment that is sent: without the dashes that belong to its end.
pub fn content_len(text: &str) -> usize
    ensures content { take result text.now ≡ comment_content text.now }
    ensures boundary { IsCharBoundary text.now result }
{
    if ends_in(text, b"--!") {
        return text.len() - 3;
    }
    if ends_in(text, b"--") {
        return text.len() - 2;
    }
    if ends_in(text, b"-") {
        return text.len() - 1;
    }
    text.len()
}

/// Whether a comment is open in the state.
pub fn is_comment_state(state: State) -> bool
    ensures { result ≡ is_comment_state state }
{
    match state {
        State::Comment | State::CommentStart | State::CommentStartDash => true,
        State::CommentLessThanSign | State::CommentLessThanSignBang => true,
        State::CommentLessThanSignBangDash | State::CommentLessThanSignBangDashDash => true,
        State::CommentEndDash | State::CommentEnd | State::CommentEndBang => true,
        State::CdataSectionBracket | State::CdataSectionEnd => true,
        _ => false,
    }
}
