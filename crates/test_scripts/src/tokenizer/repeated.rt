//! Texts of many equal parts, which have a name.
use std::alloc::Global;
use testing_lines::CaseError;

/// A text of many parts, and the name that stands for it.
#[derive(Drop)]
pub struct Repeated {
    name: String,
    text: String,
}

// Appends the part. Where `\#` stands in it, the number of the part is written.
fn push_part(text: &mut String, part: &str, number: &str) -> Result<(), CaseError> {
    for (place, piece) in part.split("\\#").enumerate() {
        if place != 0 {
            text.push_str(number)?;
        }
        text.push_str(piece)?;
    }
    Ok(())
}

/// Reads how many parts there are, and the part: the text of this many, each with its end.
pub fn many(alloc: Global, written: &str, end: &str) -> Result<String, CaseError> {
    let Some((count, part)) = written.split_once(' ') else {
        return Err(CaseError::BadLine);
    };
    let Ok(count) = count.parse::<u32>() else {
        return Err(CaseError::BadLine);
    };
    let mut text = String::new(alloc);
    for place in 0..count {
        let number = format!(in alloc; "{}", u64::from(place) + 1)?;
        push_part(&mut text, part, &number)?;
        text.push_str(end)?;
    }
    Ok(text)
}

impl Repeated {
    /// Reads a definition: a name, how many parts, and the part.
    pub fn read(alloc: Global, written: &str) -> Result<Repeated, CaseError> {
        let Some((name, parts)) = written.split_once(' ') else {
            return Err(CaseError::BadLine);
        };
        Ok(Repeated {
            name: String::from_str(alloc, name)?,
            text: many(alloc, parts, "")?,
        })
    }
}

// Appends a piece of a line, which begins with a name and `}`, with the text that the name stands for.
fn push_named(text: &mut String, piece: &str, defined: &[Repeated]) -> Result<(), CaseError> {
    let Some((name, rest)) = piece.split_once('}') else {
        return Err(CaseError::BadLine);
    };
    let Some(repeated) = defined
        .iter()
        .find(|repeated| repeated.name.as_str() == name)
    else {
        return Err(CaseError::BadLine);
    };
    text.push_str(&repeated.text)?;
    text.push_str(rest)?;
    Ok(())
}

/// The line with the texts that its names stand for: `\{NAME}` is one.
pub fn expanded(alloc: Global, line: &str, defined: &[Repeated]) -> Result<String, CaseError> {
    let mut text = String::new(alloc);
    for (place, piece) in line.split("\\{").enumerate() {
        if place == 0 {
            text.push_str(piece)?;
        } else {
            push_named(&mut text, piece, defined)?;
        }
    }
    Ok(text)
}
