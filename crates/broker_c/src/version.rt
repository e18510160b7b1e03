//! The version of the library.

ghost use Rattle.std.specs.Prelude.{◌≡◌, pos};

/// The version, as one number: 1,000,000 for the major one, 1,000 for the minor one, and the patch.
/// The file `VERSION` has the same.
#[unsafe(no_mangle)]
pub extern "C" fn broker_version() -> i32
    ensures { result ≡ pos 1000 }
{
    1_000
}
