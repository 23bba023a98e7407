//! Explanations of what is wrong with descriptions of cells and of the clock.
ghost use Rattle.mintcx_explanations.specs.Explanations.{IsOfNumber};

/// The explanation of refusal 13.
#[tactic(auto, using(crate::proofs::Fronts::of_two_digits))]
pub(crate) fn bad_cell() -> &'static str
    ensures { IsOfNumber 13 result.now }
{
    "13: a cell description breaks a rule

`refused 13 N R`: cell N breaks rule R. Cells are counted from 1 in byte order
of their names; N is 0 where no single cell is meant. The rules are:

    0  the file is TOML, in UTF-8
    1  it has nothing but `cell`, a table: write each cell as [cell.NAME]
    2  a cell is a table, with a name of 1 to 255 bytes without blanks, and
       its `kind` is \"gate\", \"latch\", \"flop\" or \"clock\"
    3  no key but those of the kind
    4  all keys of pins are there, and name as many pins as they may
    5  no name of a pin comes twice
    6  times are whole femtoseconds within their limits
    7  no max is below its min, once what isn't said is filled in
    8  `active` is \"high\" or \"low\", `edge` is \"rising\" or \"falling\", and
       `invert` is true or false, without quotes
    9  `positive` and `negative`, which `mintcx` reads with edges apart, name
       pins or pairs of pins that are there, none of them twice

So a description of one cell,

    [cell.BUF]
    kind = \"gate\"
    inputs = \"A\"
    outputs = [\"Y\"]

gives `refused 13 1 4`, as one pin is a list too: `inputs = [\"A\"]`.

Mend the cell: docs/formats.md has all keys. Times are femtoseconds: 20 ps are
20_000 and not 0.02. Rule 3 also comes of a key that is misspelt, and rule 0
mostly of a key twice or a quote that is left open.
"
}

/// The explanation of refusal 14.
#[tactic(auto, using(crate::proofs::Fronts::of_two_digits))]
pub(crate) fn bad_clock() -> &'static str
    ensures { IsOfNumber 14 result.now }
{
    "14: a clock description breaks a rule

`refused 14 N R`: item N breaks rule R. Phases, bounds, inputs and outputs are
each counted from 1; N is 0 where no single item is meant. The rules are:

    0  the file is TOML, in UTF-8
    1  it has nothing but `top`, a name, and the lists of tables `phase`,
       `bound`, `input` and `output`
    2  there is a phase
    3  a phase has a `name` and a `port`, may have a `level`, \"high\" or
       \"low\", and nothing else
    4  no two phases have one name, or one port and level
    5  a bound has `from`, `to`, `gap` and `cycles`, in form, and names
       phases that are there
    6  an input has a `port` and a `phase` that is there, may have `min` and
       `max`, in form and the max not below the min, and nothing else
    7  an output has a `port` and a `phase` that is there, may have `setup`
       and `hold`, in form, and nothing else

So a description that begins

    [phase]
    name = \"p\"
    port = \"clk\"

gives `refused 14 0 1`, as an item of a list has two brackets: `[[phase]]`.

Mend the item: docs/formats.md has all keys. Times are whole femtoseconds. The
ends of a bound are \"origin\", \"start NAME\" and \"end NAME\", with NAME a phase,
and its `cycles` are 0 or 1.
"
}

/// The explanation of refusal 15.
#[tactic(auto, using(crate::proofs::Fronts::of_two_digits))]
pub(crate) fn no_phase() -> &'static str
    ensures { IsOfNumber 15 result.now }
{
    "15: a latch or flop is on no phase

`refused 15 E`: the enable or clock pin of latch or flop E leads back to no
phase. They are counted from 0, in the order of the netlist walked from its
top. The way goes along nets and through cells of kind `clock`. It has to end
at an input of the top which a phase has with the level that is reached.

    LAT a (.D(c), .G(1'b1));

has no phase: a constant is none. Nor has a pin behind a gate, behind a port
that no phase names, or on a ring.

Give the phase its port and its level. Describe buffers, inverters and clock
gates on the way as cells of kind `clock`, with one pin for the clock and the
others in `ignored`; of a library, `mintcx --clock-cell NAME` takes a buffer
or an inverter so. Where the clock comes to such a cell now at one pin and now
at another, or data goes through it elsewhere, name a cell of its own for the
clock in the source (docs/from-tools.md).
"
}
