//! What the items of the keys of senses name.
ghost use Rattle.std.specs.Prelude.{◌≡◌, ◌++◌, ◌∷◌, bytes_eq, count_by};
ghost use Rattle.std.specs.List.{list_any};
ghost use Rattle.mintcx_sense_keys.specs.Senses.{names_pair, is_named_once, pair_sense};

use mintc_cells::Cell;
use mintc_senses_expressions::Transitions;
use mintc_text::{Name, Names};

/// How many pairs of an input and an output a gate may have.
pub(crate) const MOST_PAIRS: usize = 1024;

/// The items of the two keys.
#[derive(Drop)]
pub(crate) struct Keys {
    pub(crate) positive: Names,
    pub(crate) negative: Names,
}

/// Whether an item is a pin and an output with a space between.
fn is_pair(item: &[u8], pin: &[u8], output: &[u8]) -> bool
    ensures { result ≡ bytes_eq item.now (pin.now ++ 32 ∷ output.now) }
{
    let Some(rest) = item.strip_prefix(pin) else {
        return false;
    };
    let Some(name) = rest.strip_prefix(b" ".as_slice()) else {
        return false;
    };
    name == output
}

/// Whether an item names the pair of a pin and an output.
pub(crate) fn names_pair(cell: &Cell, pin: &Name, output: &Name, item: &Name) -> bool
    ensures { result ≡ names_pair cell.now pin.now output.now item.now }
{
    match cell {
        Cell::Gate { .. } => {
            item.bytes() == pin.bytes() || is_pair(item.bytes(), pin.bytes(), output.bytes())
        }
        Cell::Latch { pin_d, .. } | Cell::Flop { pin_d, .. } => {
            pin.bytes() == pin_d.bytes() && item.bytes() == output.bytes()
        }
        Cell::Clock { .. } => false,
    }
}

/// Whether some item names a pair.
fn is_named(cell: &Cell, pin: &Name, output: &Name, items: &[Name]) -> bool
    ensures { result ≡ list_any (names_pair cell.now pin.now output.now) items.now }
{
    for item in items {
        if names_pair(cell, pin, output, item) {
            return true;
        }
    }
    false
}

/// How many items name a pair.
fn count_naming(cell: &Cell, pin: &Name, output: &Name, items: &[Name]) -> usize
    ensures { result ≡ count_by (names_pair cell.now pin.now output.now) items.now }
{
    let mut count: usize = 0;
    for item in items {
        if names_pair(cell, pin, output, item) {
            count += 1;
        }
    }
    count
}

/// Whether one item of both keys at most names a pair.
pub(crate) fn is_named_once(keys: &Keys, cell: &Cell, pin: &Name, output: &Name) -> bool
    ensures { result ≡ is_named_once keys.now cell.now pin.now output.now }
{
    let positive = count_naming(cell, pin, output, keys.positive.items());
    let negative = count_naming(cell, pin, output, keys.negative.items());
    positive <= 1 && negative <= 1 - positive
}

/// Which edges of a pin may make which edges of an output.
pub(crate) fn pair_sense(keys: &Keys, cell: &Cell, pin: &Name, output: &Name) -> Transitions
    ensures { result ≡ pair_sense keys.now cell.now pin.now output.now }
{
    if is_named(cell, pin, output, keys.positive.items()) {
        Transitions::same()
    } else if is_named(cell, pin, output, keys.negative.items()) {
        Transitions::same().turned()
    } else {
        Transitions::all()
    }
}
