//! Explanations of warnings.
ghost use Rattle.std.specs.Prelude.{MatchOption, codes};
ghost use Rattle.mintcx_explanations.specs.Explanations.{BeginsWith, IsWarningPage, NamesNoWarning};

/// The explanation of outputs on a phase of flops.
fn outputs() -> &'static str
    ensures { BeginsWith (codes "outputs: ") result.now }
{
    "outputs: an output is on a phase of flops

An output is due where its phase ends, and data of a flop departs where its
phase starts. So data for an output on a phase of flops may come as late as
a cycle and the phase's width after the edge at which it departs. The next
edge, at which a flop outside would take it, is past then.

    [[output]]
    port = \"y\"
    phase = \"clk\"

Where all latches and flops on `clk` are flops, and `y` goes on to flops of
the same edge, the least cycle time comes out too small.

Put such an output on a phase that ends at that edge: a phase `low` on the
same port, with `level = \"low\"`, and a bound from `end low` to `start clk`
with `gap = 0` and `cycles = 1` (docs/formats.md, \"A clock description\"). For
flops of the falling edge, on a phase `low`, that is a phase `high` above it,
and a bound from `end high` to `start low` with `gap = 0` and `cycles = 0`.
Where the output is taken when the phase ends, as by a latch, nothing is to
be done.
"
}

/// The explanation of latches that lead to latches on the same phase.
fn same_phase() -> &'static str
    ensures { BeginsWith (codes "same-phase: ") result.now }
{
    "same-phase: a latch leads to a latch on the same phase

A latch that leads to a latch on the same phase gives its data to the next
opening, a cycle later: what the first sends off in one opening the second
takes in the next one. So a path between the two has a cycle.

    latch a, on p  ->  gates  ->  latch b, on p  ->  latch c, on q  ->  a

With 1,700 ps in all this ring has a least cycle of 850 ps, since it is gone
round in two cycles. Where data is to pass a and b in one and the same
opening, that is too small. So it is where a flop of the rising edge leads
to one of the falling edge, and each was made of two latches.

Where one opening is meant, make one latch of the two, or give one of them a
phase of its own: on a port of its own, and listed just behind the other's,
since phases start in the order of the file. Where the next opening is meant,
as with latches that are opened by pulses, nothing is to be done.
"
}

/// The explanation of the warning that a topic names. None where it names none.
pub fn warning_explanation(topic: &[u8]) -> Option<&'static str>
    ensures { MatchOption result (NamesNoWarning topic.now) (λ page. IsWarningPage topic.now page.now) }
{
    if topic == b"outputs".as_slice() {
        Some(outputs())
    } else if topic == b"same-phase".as_slice() {
        Some(same_phase())
    } else {
        None
    }
}
