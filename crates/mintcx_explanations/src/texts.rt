//! Explanations of texts as they are read.
ghost use Rattle.mintcx_explanations.specs.Explanations.{IsOfNumber};

/// The explanation of refusal 1.
#[tactic(auto, using(crate::proofs::Fronts::of_digit))]
pub(crate) fn syntax() -> &'static str
    ensures { IsOfNumber 1 result.now }
{
    "1: a file is out of form

`refused 1 ROLE N`: the file of this role isn't written as docs/formats.md
says, and N is the first place that isn't, counted from 1: a line of a table,
a schedule or a certificate, a statement of a netlist or a library, an entry
of the delays, where headers and CELLs count. N is 0 where delays or a library
don't even begin as such, and one more than there are where the end is missing
or something follows it.

    module m(c); input c;
    inout d;
    endmodule

gives `refused 1 netlist 3`: pads that go both ways have no form.

Mend that place. In a netlist count each `;` and `endmodule` up to N, and look
for behaviour (`always`, `reg`, operators), parameters, and gates of the
language as `and`: map all to cells first. In delays, write INCREMENT as sums
under ABSOLUTE; docs/formats.md has the other ways round. In a library, look
for a `;` or a quote that is missing and for a brace too many; with 0, whether
it is unpacked. Lines of tables, schedules and certificates end with a line
feed alone, and the first one has no byte order mark.
"
}

/// The explanation of refusal 2.
#[tactic(auto, using(crate::proofs::Fronts::of_digit))]
pub(crate) fn too_long() -> &'static str
    ensures { IsOfNumber 2 result.now }
{
    "2: a file is too long

`refused 2 ROLE`: the file of this role has more bytes than are read. `mintc`
reads 67,108,864 of each file, `mintcx` and `mintc_large` 1,073,741,824. The
role `cells` is the cell description, or the library in its place.

    refused 2 delays

Split the design, or leave out what isn't timed. Of delays, INTERCONNECTs say
nothing where all of them are 0. Of a library, leave out the cells that the
netlist doesn't use.
"
}
