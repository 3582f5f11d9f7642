// The version of the archive, as the header writes its own.
ghost use Rattle.std.specs.Prelude.{◌≡◌};
ghost use Rattle.field_host.specs.Version.{version};

// Major × 10,000 + minor × 100 + patch.
#[unsafe(no_mangle)]
pub extern "C" fn jisampode_version() -> u32
    ensures { result ≡ version }
{
    field_host::jisampode_version()
}
