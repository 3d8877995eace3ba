// The version of the library, for C.
ghost use Rattle.std.specs.Prelude.{◌≡◌};
ghost use Rattle.capi.specs.Version.{version};

const MAJOR: u32 = 0;

const MINOR: u32 = 1;

const PATCH: u32 = 0;

// Returns the version as one number, two digits each for minor and patch.
#[unsafe(no_mangle)]
pub extern "C" fn sitgurp_version() -> u32
    ensures { result ≡ version }
{
    MAJOR * 10000 + MINOR * 100 + PATCH
}
