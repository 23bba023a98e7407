//! What the parts of statements say of ports.
use mintc_netlist::Span;
use mintc_text::Name;

/// The direction and range of ports.
#[derive(Clone, Copy)]
pub(crate) struct Header {
    pub output: bool,
    pub span: Option<Span>,
}

/// A port in a list with directions, where no direction of its own means the one before.
#[derive(Drop)]
pub(crate) struct Decl {
    pub header: Option<Header>,
    pub name: Name,
}
