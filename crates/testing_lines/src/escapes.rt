//! Texts that are written with escapes.
use crate::CaseError;

// How much of an escape was read.
#[derive(Clone, Copy)]
enum Escape {
    None,
    Begun,
    Code(u32),
}

// The escape after one of its characters.
fn after_escaped(text: &mut String, escape: Escape, c: char) -> Result<Escape, CaseError> {
    let Escape::Code(code) = escape else {
        let meant = match c {
            'u' => return Ok(Escape::Code(0)),
            'n' => '\n',
            'r' => '\r',
            't' => '\t',
            '\\' => '\\',
            _ => return Err(CaseError::BadLine),
        };
        text.push(meant)?;
        return Ok(Escape::None);
    };
    match c {
        '{' => Ok(escape),
        '}' => {
            let Some(meant) = char::from_u32(code) else {
                return Err(CaseError::BadLine);
            };
            text.push(meant)?;
            Ok(Escape::None)
        }
        _ => match c.to_digit(16) {
            Some(digit) => Ok(Escape::Code(code.wrapping_mul(16).wrapping_add(digit))),
            None => Err(CaseError::BadLine),
        },
    }
}

/// Appends the text that is written with escapes: `\n`, `\r`, `\t`, `\\` and `\u{e9}`.
pub fn push_meant(text: &mut String, written: &str) -> Result<(), CaseError> {
    let mut escape = Escape::None;
    for c in written.chars() {
        escape = match escape {
            Escape::None if c == '\\' => Escape::Begun,
            Escape::None => {
                text.push(c)?;
                Escape::None
            }
            begun => after_escaped(text, begun, c)?,
        };
    }
    match escape {
        Escape::None => Ok(()),
        _ => Err(CaseError::BadLine),
    }
}
