// The version of the library as a number.
ghost use Rattle.std.specs.Prelude.{◌≡◌};
ghost use Rattle.balanced_c.specs.Version.{version_number};

// 10000 times the major version, 100 times the minor one, and the patch.
pub fn balanced_version() -> u32
    ensures { result ≡ version_number }
{
    10000 * 1 + 100 * 0 + 0
}
