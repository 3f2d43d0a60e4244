//! The ranges of the options.
ghost use Rattle.std.specs.Prelude.{◌↔◌, ◌<◌, IsTrue};
ghost use Rattle.partition_model.specs.Options.{InRange, IsPowerUpTo};

// Whether a number is in a range.
pub fn is_in(n: u32, least: u32, most: u32) -> bool
    ensures { IsTrue result ↔ InRange least most n }
{
    least <= n && n <= most
}

// Whether a number is a power of two, up to this one.
pub fn is_power_up_to(n: u32, exponent: u32) -> bool
    requires { exponent < 32 }
    ensures { IsTrue result ↔ IsPowerUpTo exponent n }
{
    n.is_power_of_two() && n <= 1 << exponent
}
