//! Names that C asks for.
ghost use Rattle.std.specs.Prelude.{◌≤◌, []};
ghost use Rattle.std.specs.Str.{IsUtf8};
ghost use Rattle.html5handle.specs.Names.{CopiesName, code_told};

/// The code that the standard has for a parse error with this message, where errors are not exact.
#[unsafe(no_mangle)]
pub extern "C" fn html5_error_code(message: &[u8], out: &mut [u8]) -> usize
    ensures code { IsUtf8 message.now → CopiesName (code_told message.now) out.old out.new result }
    ensures no_text { ¬ IsUtf8 message.now → CopiesName [] out.old out.new result }
    ensures room { result ≤ 64 }
{
    html5handle::error_code(message, out)
}
