//! Which version of the library this is.

ghost use Rattle.std.specs.Prelude.{◌≡◌};

/// The version, in three numbers: `VERSION_MAJOR * 10000 + VERSION_MINOR * 100 + VERSION_PATCH`. A program that was made
/// with a header of another major or, before 1.0.0, minor version does not fit this library.
pub const VERSION: u32 = 100;

/// The version of the library.
#[unsafe(no_mangle)]
pub extern "C" fn nashirudder_version() -> u32
    ensures { result ≡ VERSION }
{
    VERSION
}
