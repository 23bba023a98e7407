//! Rules on names and numbers by themselves, whatever they were read from.
ghost use Rattle.std.specs.Prelude.{◌≡◌};
ghost use Rattle.std.specs.List.{list_all};
ghost use Rattle.mintc_toml.specs.Rules.{is_graphic, is_name, is_delay, is_margin};

use mintc_text::limits::MOST_DELAY;

/// Whether all bytes are 33 to 126.
fn are_graphic(bytes: &[u8]) -> bool
    ensures { result ≡ list_all is_graphic bytes.now }
{
    bytes.iter().all(|byte| 33 <= *byte && *byte <= 126)
}

/// Whether bytes are 1 to 255 of 33 to 126.
pub fn is_name(bytes: &[u8]) -> bool
    ensures { result ≡ is_name bytes.now }
{
    (1 <= bytes.len() && bytes.len() <= 255) && are_graphic(bytes)
}

/// Whether a number is a delay.
pub fn is_delay(number: i64) -> bool
    ensures { result ≡ is_delay number }
{
    0 <= number && number <= MOST_DELAY
}

/// Whether a number is a setup, a hold or a gap.
pub fn is_margin(number: i64) -> bool
    ensures { result ≡ is_margin number }
{
    -MOST_DELAY <= number && number <= MOST_DELAY
}
