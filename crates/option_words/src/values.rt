//! The values of options, from the texts that they were given.
ghost use Rattle.std.specs.Prelude.{◌≡◌, true};
ghost use Rattle.std.specs.Int.{is_power_of_two};
ghost use Rattle.clap.specs.Matches.{first_value, found_of};
ghost use Rattle.option_words.specs.Settings.{begins_number, mode, power_of_two, number, required_number, number_of, value_of};

use clap::ArgMatches;
use partition_model::Mode;

fn begins_number(text: &str) -> bool
    ensures { result ≡ begins_number text.now }
{
    matches!(text.as_bytes(), [b'0'..=b'9'] | [b'1'..=b'9', _, ..])
}

/// The number that a text writes, where it lies in its range.
pub fn number_of(text: &str, least: u64, most: u64) -> Option<u64>
    ensures { result ≡ number_of least most text.now }
{
    if !begins_number(text) {
        return None;
    }
    let number = text.parse().ok()?;
    if least <= number && number <= most {
        Some(number)
    } else {
        None
    }
}

/// The number of an option, or what holds where it is not named. `None` where it is no such number.
pub fn number(
    found: &ArgMatches<'_>,
    name: &str,
    least: u64,
    most: u64,
    default: u64,
) -> Option<u64>
    ensures { result ≡ value_of (number name.now least most default) (first_value (found_of found.now)) }
{
    match found.get_str(name) {
        Some(text) => number_of(text, least, most),
        None => Some(default),
    }
}

/// The number of an option that fits 32 bits.
pub fn count(found: &ArgMatches<'_>, name: &str, least: u32, most: u32, default: u32) -> Option<u32>
    ensures { result ≡ value_of (number name.now least most default) (first_value (found_of found.now)) }
{
    let value = number(
        found,
        name,
        u64::from(least),
        u64::from(most),
        u64::from(default),
    )?;
    Some(value as u32)
}

/// The number of an option that is required.
pub fn required(found: &ArgMatches<'_>, name: &str, least: u32, most: u32) -> Option<u32>
    ensures { result ≡ value_of (required_number name.now least most) (first_value (found_of found.now)) }
{
    let text = found.get_str(name)?;
    let value = number_of(text, u64::from(least), u64::from(most))?;
    Some(value as u32)
}

/// The mode, if it is named as one.
pub fn mode(found: &ArgMatches<'_>) -> Option<Mode>
    ensures { result ≡ value_of mode (first_value (found_of found.now)) }
{
    match found.get_str("mode")? {
        "cache" => Some(Mode::Cache),
        "store" => Some(Mode::Store),
        _ => None,
    }
}

/// The power of two that an option gives.
pub fn power_of_two(found: &ArgMatches<'_>, name: &str, most: u32, default: u32) -> Option<u32>
    requires { is_power_of_two default ≡ true }
    ensures { result ≡ value_of (power_of_two name.now most default) (first_value (found_of found.now)) }
{
    let value = count(found, name, 1, most, default)?;
    if value.is_power_of_two() {
        Some(value)
    } else {
        None
    }
}
