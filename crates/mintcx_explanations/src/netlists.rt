//! Explanations of what is wrong with a netlist.
ghost use Rattle.mintcx_explanations.specs.Explanations.{IsOfNumber};

/// The explanation of refusal 3.
#[tactic(auto, using(crate::proofs::Fronts::of_digit))]
pub(crate) fn name_twice() -> &'static str
    ensures { IsOfNumber 3 result.now }
{
    "3: a name is given twice

`refused 3 N`: statement N of the netlist is the first that gives a name
again: a second module of a name, a name twice in a port list, two port
declarations or two net declarations of a name, two instances of a name in a
module, or a pin that is connected twice by name.

    module m(c); input c;
    wire w;
    wire w;
    endmodule

gives `refused 3 4`. Statements are counted from 1 over the whole netlist;
`endmodule` is one, and each other one runs to its `;`.

Rename one of the two, or take it out. An escaped name is the name without
its backslash: `\\cpu ` and `cpu` are the same.
"
}

/// The explanation of refusal 4.
#[tactic(auto, using(crate::proofs::Fronts::of_digit))]
pub(crate) fn no_module() -> &'static str
    ensures { IsOfNumber 4 result.now }
{
    "4: there is no such cell or module

`refused 4 N`: statement N of the netlist is the first with an instance of a
cell that is neither described nor a module of the netlist.

    module m(c); input c;
    INVX2 u (.A(c), .Y());
    endmodule

gives `refused 4 3`, where no cell INVX2 is described. Statements are counted
from 1 over the whole netlist, and `endmodule` is one.

Describe the cell, give the library that has it, or add the module. Of a
library, cells that can't be used are passed over, as pads, memories and flops
with a scan chain, and count as not there: describe those by hand, in a cell
description in its place (`liberty2toml` writes all the others). Case counts.
"
}

/// The explanation of refusal 5.
#[tactic(auto, using(crate::proofs::Fronts::of_digit))]
pub(crate) fn recursive() -> &'static str
    ensures { IsOfNumber 5 result.now }
{
    "5: a module has itself inside

`refused 5 N`: statement N of the netlist is the first with an instance that
leads back to the module that it stands in, at once or by other modules. Such
a hierarchy has no end. All modules are judged, also those that nothing uses.

    module m(c); input c;
    m u (.c(c));
    endmodule

gives `refused 5 3`. Statements are counted from 1 over the whole netlist, and
`endmodule` is one.

Take the instance out, or give it the module that was meant.
"
}

/// The explanation of refusal 6.
#[tactic(auto, using(crate::proofs::Fronts::of_digit))]
pub(crate) fn no_pin() -> &'static str
    ensures { IsOfNumber 6 result.now }
{
    "6: there is no such port or pin

`refused 6 N`: statement N of the netlist is the first that speaks of a port
or a pin which isn't there: a pin that the cell or module doesn't have, a
declaration of a port that isn't in the module's list, a port of the list that
has no direction (N is the module's own statement), more connections in order
than there are ports, or connections in order at a described cell.

    BUF b (.B(a), .Y(z));

is refused where BUF has the pins A and Y. Statements are counted from 1 over
the whole netlist, and `endmodule` is one.

Mend the name, and connect the pins of cells by name. A pin of a latch, a flop
or a clock cell that timing has no use for stands in the cell's `ignored`.
"
}

/// The explanation of refusal 7.
#[tactic(auto, using(crate::proofs::Fronts::of_digit))]
pub(crate) fn width() -> &'static str
    ensures { IsOfNumber 7 result.now }
{
    "7: widths don't fit

`refused 7 N`: statement N of the netlist is the first in which the two sides
of an assign or a connection have different widths, a bit or a part is taken
of a net without a range, from outside of the range or the other way round
than it runs, a port and its net have different ranges, or a constant stands
where something drives. Pins of described cells are one bit wide.

    module m(c); input c;
    wire [1:0] w;
    assign w = c;
    endmodule

gives `refused 7 4`. Statements are counted from 1 over the whole netlist, and
`endmodule` is one.

Make both sides as wide: here `assign w = {c, c};`, or `assign w[0] = c;`. A
net that isn't declared has one bit.
"
}

/// The explanation of refusal 8.
#[tactic(auto, using(crate::proofs::Fronts::of_digit))]
pub(crate) fn two_drivers() -> &'static str
    ensures { IsOfNumber 8 result.now }
{
    "8: a bit has two drivers

`refused 8 N`: statement N of the netlist is the first that drives a bit which
is driven already: by an input port, by a statement before it, or by the
statement itself. A bit has one driver in its module: an input port, an assign
or one output of an instance.

    module m(c); input c;
    assign c = 1'b0;
    endmodule

gives `refused 8 3`, as the port drives `c`. Statements are counted from 1
over the whole netlist, and `endmodule` is one.

Leave one driver. Nets that several cells drive by turns aren't modelled.
"
}

/// The explanation of refusal 9.
#[tactic(auto, using(crate::proofs::Fronts::of_digit))]
pub(crate) fn top_unclear() -> &'static str
    ensures { IsOfNumber 9 result.now }
{
    "9: the top isn't clear

`refused 9 COUNT`: so many modules may be the top of the design, and it has to
be one. They are the modules that no module instantiates; or, where the clock
description names the top, the modules of that name. Modules with the name of
a described cell don't count.

    top = \"chip\"

Name the top in the clock description, as above. COUNT is 0 where the netlist
has no module of that name; and without a name, where it has no module at all.
"
}
