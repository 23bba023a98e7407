//! The bits of a range.
ghost use Rattle.std.specs.Prelude.{◌≡◌, ◌≤◌, ◌<◌, ◌^◌, length, slice_index, IfSome};
ghost use Rattle.mintc_netlist.specs.Nets.{indexes};
ghost use Rattle.mintc_netlist.specs.Expressions.{is_inside};
ghost use Rattle.mintc_netlist_nets.specs.Tables.{bit_count, offset_of};

use mintc_netlist::Span;

/// How many bits a net has.
pub fn bits(span: Option<Span>) -> u64
    ensures value { result ≡ bit_count span }
    ensures some { 1 ≤ result }
    ensures most { result ≤ 2 ^ 32 }
{
    match span {
        None => 1,
        Some(span) => u64::from(span.msb.abs_diff(span.lsb)) + 1,
    }
}

/// The index of the bit that stands so far from the rightmost bit of a range.
pub fn index_at(span: Span, number: u32) -> u32
    requires { number < length (indexes span) }
    ensures { result ≡ slice_index (indexes span) number }
{
    if span.lsb <= span.msb {
        span.lsb + number
    } else {
        span.lsb - number
    }
}

/// Whether an index lies within a range.
pub(crate) fn is_inside(span: Span, at: u32) -> bool
    ensures { result ≡ is_inside span at }
{
    span.msb.min(span.lsb) <= at && at <= span.msb.max(span.lsb)
}

/// How far a bit stands from the rightmost bit of its net, and None where the net has no such bit. A net without a
/// range has the bit without an index, and a vector those with the indexes of its range.
pub(crate) fn offset(span: Option<Span>, index: Option<u32>) -> Option<u64>
    ensures value { result ≡ offset_of span index }
    ensures within { IfSome result (λ at. at < bit_count span) }
{
    match (span, index) {
        (None, None) => Some(0),
        (Some(span), Some(at)) if is_inside(span, at) => Some(u64::from(at.abs_diff(span.lsb))),
        _ => None,
    }
}
