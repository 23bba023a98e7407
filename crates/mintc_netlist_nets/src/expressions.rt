//! Expressions: their widths, whether their selects fit, and the places that they stand for.
ghost use Rattle.std.specs.Prelude.{◌≡◌, ◌≤◌, ◌^◌, ◌++◌, length, map, None, replicate, OnOk};
ghost use Rattle.std.specs.Option.{option_map};
ghost use Rattle.mintc_text.specs.declared.limits.TheConstants.{MOST_WIDTH};
ghost use Rattle.mintc_netlist.specs.Nets.{place_of};
ghost use Rattle.mintc_netlist.specs.Expressions.{piece_bits, expression_places, width_of, is_part, runs_alike};
ghost use Rattle.mintc_netlist.specs.Expressions.{piece_fits, selects_fit, is_constant, has_constant};
ghost use Rattle.mintc_netlist_nets.specs.Tables.{table_of};

use crate::nets::{Nets, push_place};
use crate::spans::{bits, is_inside};
use mintc_netlist::{Module, Piece, Span};
use mintc_text::OutOfMemory;
use std::alloc::Global;

/// Whether a part runs as its range does.
fn runs_alike(span: Span, part: Span) -> bool
    ensures { result ≡ runs_alike span part }
{
    (span.lsb <= span.msb && part.lsb <= part.msb) || (span.msb <= span.lsb && part.msb <= part.lsb)
}

/// Whether a part lies in a range and runs as it does.
fn is_part(span: Option<Span>, part: Span) -> bool
    ensures { result ≡ is_part span part }
{
    match span {
        None => false,
        Some(span) => {
            is_inside(span, part.msb) && is_inside(span, part.lsb) && runs_alike(span, part)
        }
    }
}

/// Whether a piece is a constant.
fn is_constant(piece: &Piece) -> bool
    ensures { result ≡ is_constant piece.now }
{
    matches!(piece, Piece::Constant { .. })
}

/// Whether an expression has a constant in it.
pub fn has_constant(pieces: &[Piece]) -> bool
    ensures { result ≡ has_constant pieces.now }
{
    for piece in pieces {
        if is_constant(piece) {
            return true;
        }
    }
    false
}

/// Takes in as many constant bits.
fn push_constant(places: &mut Vec<Option<u64>>, width: u32) -> Result<(), OutOfMemory>
    ensures { OnOk result (places.new.items ≡ places.old.items ++ replicate width None) }
{
    for _turn in 0..width {
        places.push(None)?;
    }
    Ok(())
}

impl Nets {
    /// How many bits a piece has.
    fn piece_width(&self, module_nets: &Module, piece: &Piece) -> u64
        requires { self.now ≡ table_of module_nets.now }
        ensures value { result ≡ length (piece_bits module_nets.now piece.now) }
        ensures most { result ≤ 2 ^ 32 }
    {
        match piece {
            Piece::Net { name } => bits(self.range(module_nets, name.bytes())),
            Piece::Bit { .. } => 1,
            Piece::Part { msb, lsb, .. } => bits(Some(Span {
                msb: *msb,
                lsb: *lsb,
            })),
            Piece::Constant { width } => u64::from(*width),
        }
    }

    /// How many bits an expression has.
    pub fn width(&self, module_nets: &Module, pieces: &[Piece]) -> u64
        requires table { self.now ≡ table_of module_nets.now }
        requires few { length pieces.now ≤ MOST_WIDTH }
        ensures { result ≡ width_of module_nets.now pieces.now }
    {
        let mut width = 0;
        for piece in pieces {
            width += self.piece_width(module_nets, piece);
        }
        width
    }

    /// Whether a piece's select fits the range of its name.
    fn piece_fits(&self, module_nets: &Module, piece: &Piece) -> bool
        requires { self.now ≡ table_of module_nets.now }
        ensures { result ≡ piece_fits module_nets.now piece.now }
    {
        match piece {
            Piece::Bit { name, at } => is_part(
                self.range(module_nets, name.bytes()),
                Span { msb: *at, lsb: *at },
            ),
            Piece::Part { name, msb, lsb } => is_part(
                self.range(module_nets, name.bytes()),
                Span {
                    msb: *msb,
                    lsb: *lsb,
                },
            ),
            _ => true,
        }
    }

    /// Whether the selects of an expression fit the ranges of their names.
    pub fn selects_fit(&self, module_nets: &Module, pieces: &[Piece]) -> bool
        requires { self.now ≡ table_of module_nets.now }
        ensures { result ≡ selects_fit module_nets.now pieces.now }
    {
        for piece in pieces {
            if !self.piece_fits(module_nets, piece) {
                return false;
            }
        }
        true
    }

    /// Takes in the places of a piece's bits from the rightmost, none for those of a constant.
    fn push_piece(
        &self,
        alloc: Global,
        module_nets: &Module,
        piece: &Piece,
        places: &mut Vec<Option<u64>>,
    ) -> Result<(), OutOfMemory>
        requires { self.now ≡ table_of module_nets.now }
        ensures { OnOk result (places.new.items ≡ places.old.items
            ++ map (option_map (place_of module_nets.now)) (piece_bits module_nets.now piece.now)) }
    {
        match piece {
            Piece::Net { name } => self.push_net(alloc, module_nets, name.bytes(), places),
            Piece::Bit { name, at } => {
                push_place(places, self.place(module_nets, name.bytes(), Some(*at)))
            }
            Piece::Part { name, msb, lsb } => {
                let part = Span {
                    msb: *msb,
                    lsb: *lsb,
                };
                self.push_part(alloc, module_nets, name.bytes(), part, places)
            }
            Piece::Constant { width } => push_constant(places, *width),
        }
    }

    /// Takes in the places of an expression's bits from the rightmost, none for those of constants.
    pub fn push_places(
        &self,
        alloc: Global,
        module_nets: &Module,
        pieces: &[Piece],
        places: &mut Vec<Option<u64>>,
    ) -> Result<(), OutOfMemory>
        requires { self.now ≡ table_of module_nets.now }
        ensures { OnOk result (places.new.items ≡ places.old.items ++ expression_places module_nets.now pieces.now) }
    {
        for number in 0..pieces.len() {
            self.push_piece(
                alloc,
                module_nets,
                &pieces[pieces.len() - 1 - number],
                places,
            )?;
        }
        Ok(())
    }
}
