//! Conditions: the item of a COND or a CONDELSE that counts, through conditions in one another. One walk over the
//! tokens finds it, whatever stands in the conditions before it.
ghost use Rattle.std.specs.Prelude.{◌≡◌, ◌<◌, ◌≤◌, ◌+◌, ◌++◌, ◌∷◌, [], List, Option, Some, None, IfSome, IfNone, IfOk};
ghost use Rattle.std.specs.Prelude.{OnOk, length, vec_len};
ghost use Rattle.mintc_sdf_tokens.specs.Tokens.{Token, opening};
ghost use Rattle.mintc_sdf_tokens.specs.Conditions.{kind_of, condition_at, more, has_over, noted, walked};

use crate::reader::{Reader, TokenKind};
use crate::words::is_key;
use mintc_text::OutOfMemory;
use std::alloc::Global;

/// A condition, by how many items may stand in it and how many do.
#[derive(Clone, Copy, Debug, PartialEq, Eq, Drop)]
pub enum Layer {
    /// Any number may: a COND.
    Any,
    /// One may, and none does yet: a CONDELSE.
    Empty,
    /// One may, and does.
    Full,
    /// More than the one do.
    Over,
}

/// A condition with one item more in it.
fn more(layer: Layer) -> Layer
    ensures { result ≡ more layer }
{
    match layer {
        Layer::Any => Layer::Any,
        Layer::Empty => Layer::Full,
        Layer::Full | Layer::Over => Layer::Over,
    }
}

/// What a keyword opens; a CONDELSE only where `both` are conditions.
fn kind_of(key: &[u8], both: bool) -> Option<Layer>
    ensures { result ≡ kind_of both key.now }
{
    if is_key(key, b"COND") {
        Some(Layer::Any)
    } else if both && is_key(key, b"CONDELSE") {
        Some(Layer::Empty)
    } else {
        None
    }
}

/// Passes the keyword of a condition, if it comes next.
pub fn condition(reader: &mut Reader, both: bool) -> Option<Layer>
    ensures none { IfNone result ((condition_at both reader.old ≡ None) × (reader.new ≡ reader.old)) }
    ensures some { IfSome result (λ l. condition_at both reader.old ≡ Some (l, reader.new)) }
{
    let mut next = reader.copy();
    let kind = kind_of(next.word()?, both)?;
    *reader = next;
    Some(kind)
}

/// Adds a condition.
fn push(layers: &mut Vec<Layer>, layer: Layer) -> Result<(), OutOfMemory>
    ensures { OnOk result (layers.new.items ≡ layers.old.items ++ layer ∷ []) }
{
    Ok(layers.push(layer)?)
}

/// Notes that an item begins in the condition of this number; those inside of it are left.
fn note(layers: &mut Vec<Layer>, depth: usize) -> Result<(), OutOfMemory>
    requires { depth < length layers.old.items }
    ensures { OnOk result (layers.new.items ≡ noted depth layers.old.items) }
{
    let next = more(layers[depth]);
    layers.truncate(depth);
    push(layers, next)
}

/// Notes that a list begins in the condition of this number, of which the first parenthesis was read, and gives
/// where the innermost item begins then. The keyword of a condition is passed, and no item of it has begun.
fn begin<'a>(
    reader: &mut Reader<'a>,
    layers: &mut Vec<Layer>,
    here: Reader<'a>,
    depth: usize,
    both: bool,
) -> Result<Option<Reader<'a>>, OutOfMemory>
    requires within { depth < length layers.old.items }
    requires here { here ≡ opening ∷ reader.old }
    ensures walked { IfOk result (λ last. (t : Option (List Token)) →
        walked both layers.old.items t depth (opening ∷ reader.old)
        ≡ walked both layers.new.items last (depth + 1) reader.new) }
    ensures shorter { length reader.new ≤ length reader.old }
{
    note(layers, depth)?;
    match condition(reader, both) {
        Some(inner) => {
            push(layers, inner)?;
            Ok(None)
        }
        None => Ok(Some(here)),
    }
}

/// Whether an item too many stands in one of the conditions.
fn has_over(layers: &[Layer]) -> bool
    ensures { result ≡ has_over layers.now }
{
    layers.iter().any(|layer| *layer == Layer::Over)
}

/// Passes what is left of a condition that is open, and the parenthesis that closes it, and gives a reader of the
/// item that counts, which is no condition. None where no item counts, and of a condition that isn't closed.
pub fn innermost<'a>(
    reader: &mut Reader<'a>,
    alloc: Global,
    outer: Layer,
    both: bool,
) -> Result<Option<Reader<'a>>, OutOfMemory>
    ensures none { IfOk result (λ o. IfNone o (walked both (outer ∷ []) None 0 reader.old ≡ None)) }
    ensures some { IfOk result
        (λ o. IfSome o (λ r. walked both (outer ∷ []) None 0 reader.old ≡ Some (r, reader.new))) }
{
    let most = reader.bytes_left();
    let mut layers = Vec::new(alloc);
    push(&mut layers, outer)?;
    let mut last: Option<Reader<'a>> = None;
    let mut depth: usize = 0;
    loop {
        let here = reader.copy();
        match reader.step() {
            TokenKind::Open => {
                if depth < layers.len() {
                    last = begin(reader, &mut layers, here, depth, both)?;
                }
                depth += 1;
            }
            TokenKind::Close if depth == 0 => {
                return Ok(if has_over(&layers) { None } else { last });
            }
            TokenKind::Close => depth -= 1,
            TokenKind::Word | TokenKind::Quote => {
                if depth < layers.len() {
                    note(&mut layers, depth)?;
                    last = Some(here);
                }
            }
            TokenKind::End => return Ok(None),
        }
    }
}
