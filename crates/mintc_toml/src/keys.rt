//! The keys of a table.
ghost use Rattle.std.specs.Prelude.{◌≡◌, map, bytes_eq};
ghost use Rattle.std.specs.List.{list_any};
ghost use Rattle.toml.specs.Data.{get_member};
ghost use Rattle.toml.specs.View.{table_view};
ghost use Rattle.mintc_toml.specs.Lookups.{has_only, is_one_of, are_integers};

use crate::lookups;
use toml::Table;

/// Whether a key is one of these.
fn is_among(key: &str, keys: &[&str]) -> bool
    ensures { result ≡ list_any (bytes_eq key.now) (map (λ k. k.now) keys.now) }
{
    for known in keys {
        if key == *known {
            return true;
        }
    }
    false
}

/// Whether a table has no other keys than these.
pub fn has_only(table: &Table, keys: &[&str]) -> bool
    ensures { result ≡ has_only (map (λ k. k.now) keys.now) (table_view table.now) }
{
    for (key, _) in table.iter() {
        if !is_among(key.as_str(), keys) {
            return false;
        }
    }
    true
}

/// Whether the text at a key is one of these, or isn't there.
pub fn is_one_of(table: &Table, key: &str, values: &[&str], default: &str) -> bool
    ensures { result ≡ is_one_of (map (λ k. k.now) values.now) default.now (get_member key.now (table_view table.now)) }
{
    lookups::is_text(table, key, true) && is_among(lookups::text(table, key, default), values)
}

/// Whether each of these keys is a whole number or isn't there.
pub fn are_integers(table: &Table, keys: &[&str]) -> bool
    ensures { result ≡ are_integers (map (λ k. k.now) keys.now) (table_view table.now) }
{
    for key in keys {
        if !lookups::is_integer(table, *key, true) {
            return false;
        }
    }
    true
}
