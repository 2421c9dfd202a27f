//! The decoders, byte by byte.
ghost use Rattle.std.specs.Prelude.{◌≡◌, ◌+◌, ◌^◌, ◌<◌, ◌≤◌, IfOk, IfSome, OnOk, encode_utf8_all, length, string_bytes, take};
ghost use Rattle.html5encodings.specs.Decoding.{Continues, IsState, StandsForItself, at_end, given, given_before_error, handled, is_whole, len_before_error, reads_ascii, reads_plain, reads_text, returns_error, start, state_after, state_before_error};
ghost use Rattle.html5encodings.specs.Steps.{Adds};

use crate::encoding::{Encoding, SingleByte};
use crate::front::{ascii_len, plain_len, text_len};
use crate::handlers::{self, append_run};
use crate::iso_2022_jp::{self, Begun, Charset, Iso2022Jp};
use crate::miscellaneous::{append_replaced, append_user_defined};
use crate::steps::error_if;
use crate::utf8::{self, Partial};
use crate::utf16::{self, SharedUtf16};
use crate::{big5, euc_jp, euc_kr, gb18030, shift_jis, single_byte};
use std::alloc::{AllocError, Allocator};
use std::str::from_utf8_unchecked;

/// Where a decoder stands between two bytes.
#[derive(Clone, Copy)]
pub enum State {
    Utf8(Option<Partial>),
    SingleByte(SingleByte),
    Gb18030(Option<gb18030::Lead>),
    Big5(Option<u8>),
    EucJp(Option<euc_jp::Lead>),
    Iso2022Jp(Iso2022Jp),
    ShiftJis(Option<u8>),
    EucKr(Option<u8>),
    /// It says whether an error was returned.
    Replacement(bool),
    Utf16(SharedUtf16),
    UserDefined,
}

// Where the decoder of an encoding begins.
pub(crate) fn start(encoding: Encoding) -> State
    ensures value { result ≡ start encoding }
    ensures valid { IsState result }
{
    match encoding {
        Encoding::Utf8 => State::Utf8(None),
        Encoding::SingleByte(single) => State::SingleByte(single),
        Encoding::Gbk | Encoding::Gb18030 => State::Gb18030(None),
        Encoding::Big5 => State::Big5(None),
        Encoding::EucJp => State::EucJp(None),
        Encoding::Iso2022Jp => State::Iso2022Jp(Iso2022Jp {
            charset: Charset::Ascii,
            begun: Begun::Nothing,
            escaped: false,
        }),
        Encoding::ShiftJis => State::ShiftJis(None),
        Encoding::EucKr => State::EucKr(None),
        Encoding::Replacement => State::Replacement(false),
        Encoding::Utf16Be => utf16_start(true),
        Encoding::Utf16Le => utf16_start(false),
        Encoding::XUserDefined => State::UserDefined,
    }
}

fn utf16_start(big_endian: bool) -> State
    ensures { result ≡ State.Utf16 (record { big_endian = big_endian; lead_byte = None; lead_surrogate = None }) }
{
    State::Utf16(SharedUtf16 {
        big_endian,
        lead_byte: None,
        lead_surrogate: None,
    })
}

// Appends the text of bytes, and gives where they leave the decoder.
pub(crate) fn append<A: Allocator>(
    state: State,
    bytes: &[u8],
    text: &mut String<A>,
) -> Result<State, AllocError>
    requires { IsState state }
    ensures text { OnOk result (Adds text.old text.new (given state bytes.now)) }
    ensures leaves { IfOk result (λ left. left ≡ state_after state bytes.now) }
    ensures valid { IfOk result IsState }
{
    let mut reached = state;
    let mut at = 0;
    while at < bytes.len() {
        let (count, left) = append_front(reached, &bytes[at..], text)?;
        at += count;
        reached = left;
    }
    Ok(reached)
}

// Appends the text of bytes at the front, of all that stand for themselves or of some that are handled one by
// one. Returns how many they were and where they leave the decoder.
fn append_front<A: Allocator>(
    state: State,
    bytes: &[u8],
    text: &mut String<A>,
) -> Result<(usize, State), AllocError>
    requires some { 0 < length bytes.now }
    requires valid { IsState state }
    ensures { IfOk result (Continues state bytes.now (string_bytes text.old) (string_bytes text.new)) }
{
    let len = front_len(state, bytes);
    if len > 0 {
        text.push_str(unsafe { from_utf8_unchecked(&bytes[..len]) })?;
        return Ok((len, state));
    }
    append_handled(state, bytes, text)
}

// Appends the text of bytes at the front that are handled one by one.
fn append_handled<A: Allocator>(
    state: State,
    bytes: &[u8],
    text: &mut String<A>,
) -> Result<(usize, State), AllocError>
    requires some { 0 < length bytes.now }
    requires valid { IsState state }
    ensures { IfOk result (Continues state bytes.now (string_bytes text.old) (string_bytes text.new)) }
{
    match state {
        State::SingleByte(single) => {
            let (len, left) = append_run::<handlers::SingleByte, A>(single, bytes, text)?;
            Ok((len, State::SingleByte(left)))
        }
        State::Gb18030(lead) => {
            let (len, left) = append_run::<handlers::Gb18030, A>(lead, bytes, text)?;
            Ok((len, State::Gb18030(left)))
        }
        State::Big5(lead) => {
            let (len, left) = append_run::<handlers::Big5, A>(lead, bytes, text)?;
            Ok((len, State::Big5(left)))
        }
        State::EucJp(lead) => {
            let (len, left) = append_run::<handlers::EucJp, A>(lead, bytes, text)?;
            Ok((len, State::EucJp(left)))
        }
        State::Iso2022Jp(before) => {
            let (len, left) = append_run::<handlers::Iso2022Jp, A>(before, bytes, text)?;
            Ok((len, State::Iso2022Jp(left)))
        }
        State::ShiftJis(lead) => {
            let (len, left) = append_run::<handlers::ShiftJis, A>(lead, bytes, text)?;
            Ok((len, State::ShiftJis(left)))
        }
        State::EucKr(lead) => {
            let (len, left) = append_run::<handlers::EucKr, A>(lead, bytes, text)?;
            Ok((len, State::EucKr(left)))
        }
        State::Utf16(before) => {
            let (len, left) = append_run::<handlers::Utf16, A>(before, bytes, text)?;
            Ok((len, State::Utf16(left)))
        }
        State::Utf8(_) | State::Replacement(_) | State::UserDefined => {
            Ok((1, append_byte(state, bytes[0], text)?))
        }
    }
}

// How many bytes at the front stand for themselves: ASCII in most states, and in UTF-8 all text.
fn front_len(state: State, bytes: &[u8]) -> usize
    ensures within { result ≤ length bytes.now }
    ensures stands { StandsForItself state (take result bytes.now) }
{
    if reads_text(state) {
        return text_len(bytes);
    }
    if reads_ascii(state) {
        return ascii_len(bytes);
    }
    if reads_plain(state) {
        plain_len(bytes)
    } else {
        0
    }
}

// Whether text in UTF-8 stands for itself, and leaves the decoder where it is.
#[tactic(auto, unfolding(crate::specs::Decoding::reads_text))]
fn reads_text(state: State) -> bool
    ensures { result ≡ reads_text state }
{
    match state {
        State::Utf8(part) => part.is_none(),
        State::SingleByte(_) | State::Gb18030(_) | State::Big5(_) | State::EucJp(_) => false,
        State::Iso2022Jp(_) | State::ShiftJis(_) | State::EucKr(_) | State::Replacement(_) => false,
        State::Utf16(_) | State::UserDefined => false,
    }
}

// Whether ASCII stands for itself, and leaves the decoder where it is; except for UTF-8.
#[tactic(auto, unfolding(crate::specs::Decoding::reads_ascii))]
fn reads_ascii(state: State) -> bool
    ensures { result ≡ reads_ascii state }
{
    match state {
        State::SingleByte(_) | State::UserDefined => true,
        State::Gb18030(lead) => lead.is_none(),
        State::Big5(lead) => lead.is_none(),
        State::EucJp(lead) => lead.is_none(),
        State::ShiftJis(lead) => lead.is_none(),
        State::EucKr(lead) => lead.is_none(),
        State::Utf8(_) | State::Iso2022Jp(_) | State::Replacement(_) | State::Utf16(_) => false,
    }
}

// Whether plain ASCII stands for itself, and leaves the decoder where it is: in ISO-2022-JP.
#[tactic(auto, unfolding(crate::specs::Decoding::reads_plain))]
fn reads_plain(state: State) -> bool
    ensures { result ≡ reads_plain state }
{
    match state {
        State::Iso2022Jp(before) => iso_2022_jp::reads_plain(before),
        State::Utf8(_) | State::SingleByte(_) | State::Gb18030(_) | State::Big5(_) => false,
        State::EucJp(_) | State::ShiftJis(_) | State::EucKr(_) | State::Replacement(_) => false,
        State::Utf16(_) | State::UserDefined => false,
    }
}

// Appends what a byte gives, and gives where it leaves the decoder.
#[tactic(auto, unfolding(crate::specs::Decoding::handled))]
fn append_byte<A: Allocator>(
    state: State,
    byte: u8,
    text: &mut String<A>,
) -> Result<State, AllocError>
    requires { IsState state }
    ensures text { OnOk result (Adds text.old text.new (handled state byte).0) }
    ensures leaves { IfOk result (λ left. left ≡ (handled state byte).1) }
    ensures valid { IfOk result IsState }
{
    match state {
        State::Utf8(part) => Ok(State::Utf8(utf8::append_byte(part, byte, text)?)),
        State::SingleByte(single) => {
            single_byte::append_byte(single, byte, text)?;
            Ok(state)
        }
        State::Gb18030(lead) => Ok(State::Gb18030(gb18030::append_byte(lead, byte, text)?)),
        State::Big5(lead) => Ok(State::Big5(big5::append_byte(lead, byte, text)?)),
        State::EucJp(lead) => Ok(State::EucJp(euc_jp::append_byte(lead, byte, text)?)),
        State::Iso2022Jp(before) => Ok(State::Iso2022Jp(iso_2022_jp::append_byte(
            before, byte, text,
        )?)),
        State::ShiftJis(lead) => Ok(State::ShiftJis(shift_jis::append_byte(lead, byte, text)?)),
        State::EucKr(lead) => Ok(State::EucKr(euc_kr::append_byte(lead, byte, text)?)),
        State::Replacement(returned) => {
            append_replaced(returned, text)?;
            Ok(State::Replacement(true))
        }
        State::Utf16(before) => Ok(State::Utf16(utf16::append_byte(before, byte, text)?)),
        State::UserDefined => {
            append_user_defined(byte, text)?;
            Ok(state)
        }
    }
}

// The text at the end.
#[tactic(auto, unfolding(crate::specs::Decoding::at_end))]
pub(crate) fn at_end(state: State) -> &'static str
    ensures { result.now ≡ encode_utf8_all (at_end state) }
{
    match state {
        State::Utf8(part) => error_if(part.is_some()),
        State::Gb18030(lead) => error_if(lead.is_some()),
        State::Big5(lead) => error_if(lead.is_some()),
        State::EucJp(lead) => error_if(lead.is_some()),
        State::ShiftJis(lead) => error_if(lead.is_some()),
        State::EucKr(lead) => error_if(lead.is_some()),
        State::Iso2022Jp(before) => iso_2022_jp::at_end(before),
        State::Utf16(before) => error_if(utf16::is_begun(before)),
        State::SingleByte(_) | State::Replacement(_) | State::UserDefined => "",
    }
}

// What comes before the first error: where it leaves the decoder, how many bytes it takes, and after how many
// of them the last whole character ends, if one does.
#[derive(Clone, Copy)]
pub(crate) struct BeforeError {
    pub(crate) left: State,
    pub(crate) len: usize,
    pub(crate) whole: Option<usize>,
}

// Appends the text of bytes before the first error.
#[tactic(auto, unfolding(crate::specs::Decoding::handled, crate::specs::Decoding::returns_error))]
pub(crate) fn append_before_error<A: Allocator>(
    state: State,
    bytes: &[u8],
    text: &mut String<A>,
) -> Result<BeforeError, AllocError>
    requires { IsState state }
    ensures text { OnOk result (Adds text.old text.new (given_before_error state bytes.now)) }
    ensures leaves { IfOk result (λ before. before.left ≡ state_before_error state bytes.now) }
    ensures len { IfOk result (λ before. before.len ≡ len_before_error state bytes.now) }
    ensures whole { IfOk result (λ before. IfSome before.whole (λ whole. whole ≤ before.len)) }
    ensures valid { IfOk result (λ before. IsState before.left) }
{
    let mut before = BeforeError {
        left: state,
        len: 0,
        whole: None,
    };
    for byte in bytes {
        if returns_error(before.left, *byte) {
            return Ok(before);
        }
        before = longer(before, append_byte(before.left, *byte, text)?);
    }
    Ok(before)
}

// The same with one byte more, which leaves the decoder there.
fn longer(before: BeforeError, left: State) -> BeforeError
    requires { before.len + 1 < 2 ^ 64 }
    ensures left { result.left ≡ left }
    ensures len { result.len ≡ before.len + 1 }
    ensures whole { IfSome before.whole (λ whole. whole ≤ before.len) → IfSome result.whole (λ whole. whole ≤ result.len) }
{
    let len = before.len + 1;
    let whole = if is_whole(left) {
        Some(len)
    } else {
        before.whole
    };
    BeforeError { left, len, whole }
}

// Whether a byte is an error.
#[tactic(auto, unfolding(crate::specs::Decoding::returns_error))]
fn returns_error(state: State, byte: u8) -> bool
    ensures { result ≡ returns_error state byte }
{
    match state {
        State::Utf8(part) => utf8::returns_error(part, byte),
        State::SingleByte(single) => single_byte::returns_error(single, byte),
        State::Gb18030(lead) => gb18030::returns_error(lead, byte),
        State::Big5(lead) => big5::returns_error(lead, byte),
        State::EucJp(lead) => euc_jp::returns_error(lead, byte),
        State::Iso2022Jp(before) => iso_2022_jp::returns_error(before, byte),
        State::ShiftJis(lead) => shift_jis::returns_error(lead, byte),
        State::EucKr(lead) => euc_kr::returns_error(lead, byte),
        State::Replacement(returned) => !returned,
        State::Utf16(before) => utf16::returns_error(before, byte),
        State::UserDefined => false,
    }
}

// Whether nothing is begun.
#[tactic(auto, unfolding(crate::specs::Decoding::is_whole))]
pub(crate) fn is_whole(state: State) -> bool
    ensures { result ≡ is_whole state }
{
    match state {
        State::Utf8(part) => part.is_none(),
        State::Gb18030(lead) => lead.is_none(),
        State::Big5(lead) => lead.is_none(),
        State::EucJp(lead) => lead.is_none(),
        State::ShiftJis(lead) => lead.is_none(),
        State::EucKr(lead) => lead.is_none(),
        State::Iso2022Jp(before) => iso_2022_jp::is_whole(before),
        State::Utf16(before) => !utf16::is_begun(before),
        State::SingleByte(_) | State::Replacement(_) | State::UserDefined => true,
    }
}
