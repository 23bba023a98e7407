//! The colours of a picture.
ghost use Rattle.std.specs.Prelude.{◌≡◌};
ghost use Rattle.mintcx_picture.specs.Colours.{colour_code};

/// A colour, by what it is for.
#[derive(Clone, Copy, Debug, PartialEq, Eq)]
pub enum Colour {
    /// Words and edges that matter.
    Ink,
    /// Words beside them.
    Soft,
    /// The edges of a flop in other cycles.
    Faint,
    /// The lines of the axis.
    Grid,
    /// The ground of every second cycle.
    Zebra,
    /// The ground of the picture.
    Paper,
    /// What is open.
    Open,
    /// What is open in other cycles.
    Other,
    /// What is borrowed.
    Lent,
    /// A setup.
    Setup,
    /// The delay of a latch or a flop.
    Own,
    /// The delay of a gate.
    Gate,
    /// That of the gate behind it.
    Next,
    /// The delay of a wire.
    Wire,
    /// What a rule of the clock asks for.
    Rule,
    /// The edges of cycles.
    Edge,
    /// What is missing.
    Missing,
}

impl Colour {
    /// How it is written.
    pub(crate) fn code(self) -> &'static [u8]
        ensures { result.now ≡ colour_code self }
    {
        match self {
            Colour::Ink => b"#1f2328",
            Colour::Soft => b"#59636e",
            Colour::Faint => b"#b6c2cd",
            Colour::Grid => b"#d8dee4",
            Colour::Zebra => b"#f3f5f8",
            Colour::Paper => b"#ffffff",
            Colour::Open => b"#bcdcf5",
            Colour::Other => b"#e4eff8",
            Colour::Lent => b"#f2a33a",
            Colour::Setup => b"#7d8792",
            Colour::Own => b"#0b4a82",
            Colour::Gate => b"#2f76b5",
            Colour::Next => b"#4b8bc6",
            Colour::Wire => b"#a9cdea",
            Colour::Rule => b"#8a6fb0",
            Colour::Edge => b"#8c959f",
            Colour::Missing => b"#c5221f",
        }
    }
}
