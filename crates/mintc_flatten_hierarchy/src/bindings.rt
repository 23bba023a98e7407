//! What instances are of.

/// What an item of a module is an instance of: the cell of a number, the module of a number, or nothing that is there.
#[derive(Clone, Copy)]
pub enum Binding {
    OfCell(u32),
    OfModule(u32),
    OfNothing,
}
