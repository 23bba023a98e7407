//! Explanations of what is wrong with delays.
ghost use Rattle.mintcx_explanations.specs.Explanations.{IsOfNumber};

/// The explanation of refusal 10.
#[tactic(auto, using(crate::proofs::Fronts::of_two_digits))]
pub(crate) fn no_instance() -> &'static str
    ensures { IsOfNumber 10 result.now }
{
    "10: there is no such instance or port

`refused 10 clock N`: item N of the clock description, phases, inputs and
outputs counted together from 1, names no port of the top. A phase is on one
bit of an input, a listed port is a whole port of its direction.

    [[phase]]
    name = \"p\"
    port = \"clk[1]\"

is refused where the top has no input `clk` with a bit 1.

`refused 10 delays N`: entry N of the delays, headers and CELLs counted from
1, is at a path that names no instance, says something of pins at what is no
cell, or has an INTERCONNECT to what is neither an input pin of a cell nor an
output of the top.

Mend the name. For delays look at DIVIDER, at names with backslashes, and
whether the file was written of this very netlist.
"
}

/// The explanation of refusal 11.
#[tactic(auto, using(crate::proofs::Fronts::of_two_digits))]
pub(crate) fn no_arc() -> &'static str
    ensures { IsOfNumber 11 result.now }
{
    "11: a cell has no such pins

`refused 11 N`: entry N of the delays, headers and CELLs counted from 1, is at
a cell that is there, and speaks of pins that the cell doesn't have: an IOPATH
that doesn't go from an input of it to an output, or a PORT or a timing check
whose first pin is no input of it.

    (CELL (CELLTYPE \"BUF\") (INSTANCE u1)
     (DELAY (ABSOLUTE (IOPATH Y A (0.02)))))

is refused where BUF is a gate from A to Y. IOPATHs and checks of pins that
are there, and that timing has no use for, do no harm.

Mend the pins in the delays, or in the description of the cell: a pin of a
latch, a flop or a clock cell that is used for nothing stands in `ignored`.
"
}

/// The explanation of refusal 12.
#[tactic(auto, using(crate::proofs::Fronts::of_two_digits))]
pub(crate) fn negative() -> &'static str
    ensures { IsOfNumber 12 result.now }
{
    "12: a delay is below 0

`refused 12 N`: a number of an IOPATH, an INTERCONNECT, a PORT or a WIDTH in
entry N of the delays is below 0. Headers and CELLs are counted from 1. Setups
and holds may be below 0.

    (IOPATH A Y (0.060) (-0.018))

Static timing tools write such numbers where they read a library's tables
beyond their ends, as OpenSTA does at long nets without buffers.

Have long nets buffered (docs/from-tools.md says how). Or write 0 in place of
the number, as `mintcx --clamp-negative` reads it: that is safe for setups,
not for holds. Or move what the number takes off to the delay before it.
"
}

/// The explanation of refusal 18.
#[tactic(auto, using(crate::proofs::Fronts::of_two_digits))]
pub(crate) fn range() -> &'static str
    ensures { IsOfNumber 18 result.now }
{
    "18: a number of the delays is above a microsecond

`refused 18 N`: a number of entry N of the delays is above 10^9 femtoseconds,
or below -10^9. Headers and CELLs are counted from 1.

    (TIMESCALE 1ns)
    (IOPATH A Y (1500))

A microsecond between two latches is mostly a number in a wrong unit. Look at
TIMESCALE, which says the unit of all numbers: without it that is 1 ns, and
where it comes several times, the last one counts.
"
}
