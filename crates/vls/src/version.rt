// The version of the border.
ghost use Rattle.std.specs.Prelude.{◌≡◌};
ghost use Rattle.vls.specs.Edition.{edition};

#[unsafe(no_mangle)]
pub extern "C" fn vls_version() -> u64
    ensures { result ≡ edition }
{
    1001000
}
