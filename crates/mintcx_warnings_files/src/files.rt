//! The files of a design.
ghost use Rattle.std.specs.Prelude.{◌≡◌};

use mintcx_places::Range;
use mintcx_warnings::Scene;

/// A file: its name and its bytes.
#[derive(Clone, Copy)]
pub struct File<'a> {
    pub name: &'a [u8],
    pub text: &'a [u8],
}

/// What the cells are read from.
#[derive(Clone, Copy, Debug, PartialEq, Eq)]
pub enum CellsForm {
    /// A description.
    Description,
    /// A Liberty library.
    Library,
    /// A description that was made of the file of this name: no place in it is shown.
    Made,
}

/// The files of a design, and in which form its cells are.
#[derive(Clone, Copy)]
pub struct Files<'a> {
    pub netlist: File<'a>,
    pub delays: File<'a>,
    pub cells: File<'a>,
    pub clock: File<'a>,
    pub form: CellsForm,
}

/// A place of a file, if one is found.
pub(crate) fn scene<'a>(file: &File<'a>, place: Option<Range>) -> Scene<'a>
    ensures { result ≡ record { name = file.now.name; text = file.now.text; place = place } }
{
    Scene {
        name: file.name,
        text: file.text,
        place,
    }
}
