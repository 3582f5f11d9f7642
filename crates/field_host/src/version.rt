// The version of the archive, as the header writes its own.
ghost use Rattle.std.specs.Prelude.{◌≡◌};
ghost use Rattle.field_host.specs.Version.{version};

// Major × 10,000 + minor × 100 + patch.
pub fn jisampode_version() -> u32
    ensures { result ≡ version }
{
    100
}
