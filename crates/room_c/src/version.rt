// The version of the library.
ghost use Rattle.std.specs.Prelude.{◌≡◌, ◌+◌, ◌*◌};

const MAJOR: u32 = 0;

const MINOR: u32 = 1;

const PATCH: u32 = 0;

/// Returns the version as one number: 65,536 times the major number, plus 256 times the minor number, plus the patch number. In the header, the same number
/// is named `ZOFTEMAR_VERSION_NUMBER`.
#[unsafe(no_mangle)]
pub extern "C" fn zoftemar_version() -> u32
    ensures { result ≡ 65536 * 0 + 256 * 1 + 0 }
{
    65536 * MAJOR + 256 * MINOR + PATCH
}
