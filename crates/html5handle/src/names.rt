//! Names that a caller asks for.
ghost use Rattle.std.specs.Prelude.{◌≡◌, ◌≤◌, ◌++◌, [], drop, length, min, take};
ghost use Rattle.std.specs.Str.{IsUtf8};
ghost use Rattle.html5handle.specs.Names.{CopiesName, code_told};

/// Copies the front of a name, as much as there is room for, and answers how many bytes that is.
pub fn copy_name(name: &[u8], out: &mut [u8]) -> usize
    ensures count { result ≡ min (length out.old) (length name.now) }
    ensures copied { out.new ≡ take result name.now ++ drop result out.old }
{
    let count = out.len().min(name.len());
    out[..count].copy_from_slice(&name[..count]);
    count
}

/// The code that the standard has for a parse error with this message, where errors are not exact. It copies as much of
/// the code as there is room for, and answers how many bytes that is: 0 if it has none. There is always room in 64
/// bytes.
pub fn error_code(message: &[u8], out: &mut [u8]) -> usize
    ensures code { IsUtf8 message.now → CopiesName (code_told message.now) out.old out.new result }
    ensures no_text { ¬ IsUtf8 message.now → CopiesName [] out.old out.new result }
    ensures room { result ≤ 64 }
{
    let Ok(message) = str::from_utf8(message) else {
        return 0;
    };
    match html5errors::error_code(message) {
        Some(code) => copy_name(code.as_str().as_bytes(), out),
        None => 0,
    }
}
