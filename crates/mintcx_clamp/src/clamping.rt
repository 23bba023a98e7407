//! Delays with 0 in the place of numbers below 0.
ghost use Rattle.std.specs.Prelude.{◌≡◌, ◌≤◌, IfOk, IfSome, MatchBool, length};
ghost use Rattle.mintc_text.specs.declared.limits.TheConstants.{MOST_BYTES};
ghost use Rattle.mintcx_clamp.specs.Clamping.{HasClamped, IsBelow};

use crate::walking::is_followed;
use crate::writing::clamped_text;
use mintc_sdf::{items_are_the_tokens, read_delays};
use mintc_text::limits::MOST_BYTES;
use mintc_text::{Bytes, OutOfMemory, Refusal, Stop};
use std::alloc::Global;

/// Whether a text is refused for a number below 0.
fn is_below(alloc: Global, text: &[u8]) -> Result<bool, OutOfMemory>
    requires { length text.now ≤ MOST_BYTES }
    ensures { IfOk result (λ below. MatchBool below (IsBelow text.now) (IsBelow text.now → ⊥)) }
{
    match read_delays(alloc, text) {
        Ok(_) => Ok(false),
        Err(Stop::Refused(Refusal::Negative { .. })) => Ok(true),
        Err(Stop::Refused(_)) => Ok(false),
        Err(Stop::OutOfMemory) => Err(OutOfMemory),
    }
}

/// Whether a text is what another one becomes, and isn't refused for a number below 0.
fn is_clamped(alloc: Global, text: &[u8], clamped: &[u8]) -> Result<bool, OutOfMemory>
    requires { IsBelow text.now }
    ensures { IfOk result (λ is. MatchBool is
        (HasClamped text.now clamped.now × (IsBelow clamped.now → ⊥)) (Unit {0})) }
{
    items_are_the_tokens();
    if clamped.len() > MOST_BYTES || !is_followed(alloc, text, clamped)? {
        return Ok(false);
    }
    Ok(!is_below(alloc, clamped)?)
}

/// A text of delays with `0` in the place of each number below 0 that may not be: what is read of it are the delays of
/// the text that was given with 0 for such numbers, and it isn't refused for one. None where there is no such number in
/// delays that are in form, and where one is left: one that shares its parentheses with white space.
pub fn clamp(alloc: Global, text: &[u8]) -> Result<Option<Bytes>, OutOfMemory>
    requires { length text.now ≤ MOST_BYTES }
    ensures clamped { IfOk result (λ found. IfSome found (HasClamped text.now)) }
    ensures left { IfOk result (λ found. IfSome found (λ clamped. IsBelow clamped → ⊥)) }
    ensures needed { IfOk result (λ found. IfSome found (λ _. IsBelow text.now)) }
{
    if !is_below(alloc, text)? {
        return Ok(None);
    }
    let clamped = clamped_text(alloc, text)?;
    if is_clamped(alloc, text, clamped.as_slice())? {
        Ok(Some(Bytes::new(clamped)))
    } else {
        Ok(None)
    }
}
