//! Runs of bytes that are handled one by one.
ghost use Rattle.std.specs.Prelude.{◌<◌, IfOk, length, string_bytes};
ghost use Rattle.html5encodings.specs.Decoding.{Continues, IsState};

use crate::front::begins_ascii;
use crate::{
    big5, encoding, euc_jp, euc_kr, gb18030, iso_2022_jp as jis, shift_jis, single_byte,
    utf16 as units,
};
use std::alloc::{AllocError, Allocator};

/// A decoder's handler, with what it holds between two bytes.
pub(crate) trait Handler {
    ghost use Rattle.std.specs.Prelude.{◌≡◌, ◌||◌, IfOk, OnOk};
    ghost use Rattle.html5encodings.specs.declared.state.State.{State};
    ghost use Rattle.html5encodings.specs.Decoding.{IsState, handled, reads_ascii, reads_plain};
    ghost use Rattle.html5encodings.specs.Steps.{Adds};

    type Held: Copy;

    // The state of the decoder that holds this.
    ghost state: { Self.Held → State };

    // Appends what a byte gives, and returns the state held after it.
    fn append_byte<A: Allocator>(
        held: Self::Held,
        byte: u8,
        text: &mut String<A>,
    ) -> Result<Self::Held, AllocError>
        requires { IsState (state held) }
        ensures text { OnOk result (Adds text.old text.new (handled (state held) byte).0) }
        ensures leaves { IfOk result (λ left. state left ≡ (handled (state held) byte).1) }
        ensures valid { IfOk result (λ left. IsState (state left)) };

    // Whether ASCII stands for itself.
    fn reads_ascii(held: Self::Held) -> bool
        ensures { result ≡ (reads_ascii (state held) || reads_plain (state held)) };
}

// Appends the text of bytes, of the first one at least, up to two bytes of ASCII that stand for themselves, or to the
// end. It returns how many they were and the state held after them.
pub(crate) fn append_run<H: Handler, A: Allocator>(
    held: H::Held,
    bytes: &[u8],
    text: &mut String<A>,
) -> Result<(usize, H::Held), AllocError>
    requires some { 0 < length bytes.now }
    requires valid { IsState (H.state held) }
    ensures { IfOk result (λ run. Continues (H.state held) bytes.now (string_bytes text.old) (string_bytes text.new) (run.0, H.state run.1)) }
{
    let mut reached = H::append_byte(held, bytes[0], text)?;
    let mut at = 1;
    while at < bytes.len() && !(H::reads_ascii(reached) && begins_ascii(bytes, at)) {
        reached = H::append_byte(reached, bytes[at], text)?;
        at += 1;
    }
    Ok((at, reached))
}

pub(crate) struct SingleByte;

impl Handler for SingleByte {
    ghost use Rattle.html5encodings.specs.declared.state.State.TheVariants as state;

    type Held = encoding::SingleByte;

    ghost state = { λ h. state.SingleByte h };

    #[inline(always)]
    #[tactic(auto, unfolding(crate::specs::Decoding::handled))]
    fn append_byte<A: Allocator>(
        single: encoding::SingleByte,
        byte: u8,
        text: &mut String<A>,
    ) -> Result<encoding::SingleByte, AllocError> {
        single_byte::append_byte(single, byte, text)?;
        Ok(single)
    }

    #[tactic(auto, unfolding(crate::specs::Decoding::reads_ascii, crate::specs::Decoding::reads_plain))]
    fn reads_ascii(_single: encoding::SingleByte) -> bool {
        true
    }
}

pub(crate) struct Gb18030;

impl Handler for Gb18030 {
    ghost use Rattle.html5encodings.specs.declared.state.State.TheVariants as state;

    type Held = Option<gb18030::Lead>;

    ghost state = { λ h. state.Gb18030 h };

    #[inline(always)]
    #[tactic(auto, unfolding(crate::specs::Decoding::handled))]
    fn append_byte<A: Allocator>(
        lead: Option<gb18030::Lead>,
        byte: u8,
        text: &mut String<A>,
    ) -> Result<Option<gb18030::Lead>, AllocError> {
        gb18030::append_byte(lead, byte, text)
    }

    #[tactic(auto, unfolding(crate::specs::Decoding::reads_ascii, crate::specs::Decoding::reads_plain))]
    fn reads_ascii(lead: Option<gb18030::Lead>) -> bool {
        lead.is_none()
    }
}

pub(crate) struct Big5;

impl Handler for Big5 {
    ghost use Rattle.html5encodings.specs.declared.state.State.TheVariants as state;

    type Held = Option<u8>;

    ghost state = { λ h. state.Big5 h };

    #[inline(always)]
    #[tactic(auto, unfolding(crate::specs::Decoding::handled))]
    fn append_byte<A: Allocator>(
        lead: Option<u8>,
        byte: u8,
        text: &mut String<A>,
    ) -> Result<Option<u8>, AllocError> {
        big5::append_byte(lead, byte, text)
    }

    #[tactic(auto, unfolding(crate::specs::Decoding::reads_ascii, crate::specs::Decoding::reads_plain))]
    fn reads_ascii(lead: Option<u8>) -> bool {
        lead.is_none()
    }
}

pub(crate) struct EucJp;

impl Handler for EucJp {
    ghost use Rattle.html5encodings.specs.declared.state.State.TheVariants as state;

    type Held = Option<euc_jp::Lead>;

    ghost state = { λ h. state.EucJp h };

    #[inline(always)]
    #[tactic(auto, unfolding(crate::specs::Decoding::handled))]
    fn append_byte<A: Allocator>(
        lead: Option<euc_jp::Lead>,
        byte: u8,
        text: &mut String<A>,
    ) -> Result<Option<euc_jp::Lead>, AllocError> {
        euc_jp::append_byte(lead, byte, text)
    }

    #[tactic(auto, unfolding(crate::specs::Decoding::reads_ascii, crate::specs::Decoding::reads_plain))]
    fn reads_ascii(lead: Option<euc_jp::Lead>) -> bool {
        lead.is_none()
    }
}

pub(crate) struct Iso2022Jp;

impl Handler for Iso2022Jp {
    ghost use Rattle.html5encodings.specs.declared.state.State.TheVariants as state;

    type Held = jis::Iso2022Jp;

    ghost state = { λ h. state.Iso2022Jp h };

    #[inline(always)]
    #[tactic(auto, unfolding(crate::specs::Decoding::handled))]
    fn append_byte<A: Allocator>(
        before: jis::Iso2022Jp,
        byte: u8,
        text: &mut String<A>,
    ) -> Result<jis::Iso2022Jp, AllocError> {
        jis::append_byte(before, byte, text)
    }

    #[tactic(auto, unfolding(crate::specs::Decoding::reads_ascii, crate::specs::Decoding::reads_plain))]
    fn reads_ascii(before: jis::Iso2022Jp) -> bool {
        jis::reads_plain(before)
    }
}

pub(crate) struct ShiftJis;

impl Handler for ShiftJis {
    ghost use Rattle.html5encodings.specs.declared.state.State.TheVariants as state;

    type Held = Option<u8>;

    ghost state = { λ h. state.ShiftJis h };

    #[inline(always)]
    #[tactic(auto, unfolding(crate::specs::Decoding::handled))]
    fn append_byte<A: Allocator>(
        lead: Option<u8>,
        byte: u8,
        text: &mut String<A>,
    ) -> Result<Option<u8>, AllocError> {
        shift_jis::append_byte(lead, byte, text)
    }

    #[tactic(auto, unfolding(crate::specs::Decoding::reads_ascii, crate::specs::Decoding::reads_plain))]
    fn reads_ascii(lead: Option<u8>) -> bool {
        lead.is_none()
    }
}

pub(crate) struct EucKr;

impl Handler for EucKr {
    ghost use Rattle.html5encodings.specs.declared.state.State.TheVariants as state;

    type Held = Option<u8>;

    ghost state = { λ h. state.EucKr h };

    #[inline(always)]
    #[tactic(auto, unfolding(crate::specs::Decoding::handled))]
    fn append_byte<A: Allocator>(
        lead: Option<u8>,
        byte: u8,
        text: &mut String<A>,
    ) -> Result<Option<u8>, AllocError> {
        euc_kr::append_byte(lead, byte, text)
    }

    #[tactic(auto, unfolding(crate::specs::Decoding::reads_ascii, crate::specs::Decoding::reads_plain))]
    fn reads_ascii(lead: Option<u8>) -> bool {
        lead.is_none()
    }
}

pub(crate) struct Utf16;

impl Handler for Utf16 {
    ghost use Rattle.html5encodings.specs.declared.state.State.TheVariants as state;

    type Held = units::SharedUtf16;

    ghost state = { λ h. state.Utf16 h };

    #[inline(always)]
    #[tactic(auto, unfolding(crate::specs::Decoding::handled))]
    fn append_byte<A: Allocator>(
        before: units::SharedUtf16,
        byte: u8,
        text: &mut String<A>,
    ) -> Result<units::SharedUtf16, AllocError> {
        units::append_byte(before, byte, text)
    }

    #[tactic(auto, unfolding(crate::specs::Decoding::reads_ascii, crate::specs::Decoding::reads_plain))]
    fn reads_ascii(_before: units::SharedUtf16) -> bool {
        false
    }
}
