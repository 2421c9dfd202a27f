//! The version of the library.
ghost use Rattle.std.specs.Prelude.{◌≡◌};

const VERSION: u32 = 0x001400;

/// The version of the library: its three numbers, a byte each, so that a later one is greater.
#[unsafe(no_mangle)]
pub extern "C" fn html5_version() -> u32
    ensures { result ≡ VERSION }
{
    VERSION
}
