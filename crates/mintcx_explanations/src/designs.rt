//! Explanations of what is wrong with a design, beside a schedule and in corners too.
ghost use Rattle.mintcx_explanations.specs.Explanations.{IsOfNumber};

/// The explanation of refusal 16.
#[tactic(auto, using(crate::proofs::Fronts::of_two_digits))]
pub(crate) fn combinational_loop() -> &'static str
    ensures { IsOfNumber 16 result.now }
{
    "16: data can run round without a latch or flop

`refused 16 M A1 .. AM`: these M arcs lead round, one after the other, with no
latch and no flop among them, so that data could run round for ever. Arcs are
counted from 0: those of a table in its order, those of a netlist in the order
of docs/netlist.md.

    wire a, b;
    assign a = b;
    assign b = a;

gives `refused 16 2 0 1`, or `refused 16 2 1 0`, in a top that has no more.

Break the loop, or put the latch into it that is missing. A latch that is
described as a gate makes such a loop too: describe it as a latch.
"
}

/// The explanation of refusal 17.
#[tactic(auto, using(crate::proofs::Fronts::of_two_digits))]
pub(crate) fn limit() -> &'static str
    ensures { IsOfNumber 17 result.now }
{
    "17: the design is larger than what is taken

`refused 17 KIND COUNT`: there are COUNT of this kind, and that is more than
are taken. Counts above 10^9 are written as 10^9.

    KIND      what                                      mintc      mintcx
    scopes    instances of modules, the top counted    50,000   1,000,000
    depth     modules inside of one another                32          32
    leaves    instances of cells                       50,000   1,000,000
    inner     inner bits: those of nets and pins      262,144   8,388,608
    phases                                                  8           8
    elements  latches, flops and listed port bits       2,000      20,000
    arcs      delays from bit to bit                  524,288  16,777,216
    bounds                                                 64          64
    pairs     elements that some path joins           200,000  10,000,000

`mintc_large` has the limits of `mintcx`. With `corners`, the elements of all
corners count together. `slack` takes 2,000 elements in any case.

Judge the design in parts: name a smaller `top` in the clock description, and
have its delays written anew for it; or give fewer delay files at once. More
phases or bounds than these are not taken.
"
}

/// The explanation of refusal 19.
#[tactic(auto, using(crate::proofs::Fronts::of_two_digits))]
pub(crate) fn phase_mismatch() -> &'static str
    ensures { IsOfNumber 19 result.now }
{
    "19: the schedule has other phases than the design

`refused 19 K S`: the design has K phases, and the schedule has S.

    phases 1
    phase 0 50

gives `refused 19 2 1` for a design with two phases.

Write one line `phase START WIDTH` for each phase of the design, in the order
of the clock description or of the table, and their number behind `phases`.
"
}

/// The explanation of refusal 21.
#[tactic(auto, using(crate::proofs::Fronts::of_two_digits))]
pub(crate) fn path_range() -> &'static str
    ensures { IsOfNumber 21 result.now }
{
    "21: a path takes more than a microsecond

`refused 21 L B`: some path from element L to bit B takes more than 10^9
femtoseconds, although none of its delays does. Elements are counted from 0.
With n elements, bit 2i is the input of element i, bit 2i + 1 its output, and
bit 2n + i is inner bit i. L is the first element with such a path, and B the
first bit to which one leads.

    element a 1 0 - 0 0 0
    inner 1
    arcs 2
    arc q0 n0 1000000000 1000000000
    arc n0 d0 1 1

gives `refused 21 0 0`, with one element: bit 0 is the input of `a`.

Look at the greatest delays on the way: a microsecond between two latches is
mostly a number in a wrong unit.
"
}

/// The explanation of refusal 22.
#[tactic(auto, using(crate::proofs::Fronts::of_two_digits))]
pub(crate) fn corner() -> &'static str
    ensures { IsOfNumber 22 result.now }
{
    "22: a corner is refused

`refused 22 FILE`: the design with delay file FILE of `corners` is refused,
and none before it. Delay files are counted from 1. Each corner has to be a
design by itself; they share netlist, cells and clock.

    refused 22 2
    refused 1 delays 1

Here the second delay file isn't closed. `mintc` writes the corner's own
refusal as a second line; `optimise` with that delay file alone says it too.

Do what that refusal asks for. Where it speaks of the netlist, the cells or
the clock, FILE is 1, and the other corners have the same fault.
"
}
