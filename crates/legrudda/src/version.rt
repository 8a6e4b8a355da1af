// The library's version.
ghost use Rattle.std.specs.Prelude.{◌≡◌, ◌+◌, ◌*◌};

// 0.8.0: major·65536 + minor·256 + patch.
#[unsafe(no_mangle)]
pub extern "C" fn legrudda_version() -> u32
    ensures { result ≡ 0 * 65536 + 8 * 256 + 0 }
{
    2048
}
