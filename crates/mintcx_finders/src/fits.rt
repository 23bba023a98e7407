//! Connections that are wider or narrower than their ports.
ghost use Rattle.std.specs.Prelude.{◌≤◌, IfOk, IfSome, length};
ghost use Rattle.mintcx_finders.specs.Places.{IsInside};

use crate::connections::{Connection, next_connection};
use crate::found::{Fault, Found, bytes_of, found_inside, name_of};
use crate::modules::cell_of;
use crate::walk::{is_name, is_sign, module_around, range_of};
use crate::widths::{Bracket, Widths, bracket_behind, widths_of};
use mintc_text::{OutOfMemory, leading_digits};
use mintc_vlex::{Token, TokenKind, next_token};
use mintcx_places::Range;
use std::alloc::Global;

/// The bit or the part that is taken of a name. None where all of it is.
fn part_behind(text: &[u8], name: &Token) -> Option<Bracket>
    requires { name.now.to ≤ length text.now }
    ensures behind { IfSome result (λ b. name.now.to ≤ b.to) }
    ensures within { IfSome result (λ b. b.to ≤ length text.now) }
{
    let open = next_token(text, name.to)?;
    if is_sign(text, &open, b'[') {
        bracket_behind(text, &open)
    } else {
        None
    }
}

/// A name of an expression of a module: how wide it is, and the place behind it and what is taken of it.
fn name_piece(
    alloc: Global,
    text: &[u8],
    module: &[u8],
    widths: &Widths,
    name: &Token,
) -> Result<Bracket, OutOfMemory>
    requires { name.now.to ≤ length text.now }
    ensures behind { IfOk result (λ p. name.now.to ≤ p.to) }
    ensures within { IfOk result (λ p. p.to ≤ length text.now) }
{
    if let Some(part) = part_behind(text, name) {
        return Ok(part);
    }
    let width = widths.width(alloc, module, name_of(text, &range_of(name)))?;
    Ok(Bracket { width, to: name.to })
}

/// The piece of an expression that a token begins: how wide it is, and the place behind it. None of a repetition.
fn piece_at(
    alloc: Global,
    text: &[u8],
    module: &[u8],
    widths: &Widths,
    token: &Token,
) -> Result<Option<Bracket>, OutOfMemory>
    requires { token.now.to ≤ length text.now }
    ensures behind { IfOk result (λ o. IfSome o (λ p. token.now.to ≤ p.to)) }
    ensures within { IfOk result (λ o. IfSome o (λ p. p.to ≤ length text.now)) }
{
    if is_name(token) {
        return Ok(Some(name_piece(alloc, text, module, widths, token)?));
    }
    let width = match token.kind {
        TokenKind::Constant => leading_digits(bytes_of(text, &range_of(token))).0,
        TokenKind::Sign => 0,
        _ => return Ok(None),
    };
    let to = token.to;
    Ok(Some(Bracket { width, to }))
}

/// How wide an expression of a module is. None where it has a repetition.
fn bits_in(
    alloc: Global,
    text: &[u8],
    module: &[u8],
    widths: &Widths,
    range: &Range,
) -> Result<Option<u64>, OutOfMemory> {
    let mut at = range.from;
    let mut width = 0u64;
    while let Some(token) = next_token(text, at) {
        if token.to > range.to {
            return Ok(Some(width));
        }
        let Some(piece) = piece_at(alloc, text, module, widths, &token)? else {
            return Ok(None);
        };
        width = width.saturating_add(piece.width);
        at = piece.to;
    }
    Ok(Some(width))
}

/// What is wrong with a connection of a module to a cell, if its widths differ.
fn fault_of(
    alloc: Global,
    text: &[u8],
    module: &[u8],
    widths: &Widths,
    cell: &[u8],
    connection: &Connection,
) -> Result<Option<Fault>, OutOfMemory> {
    let wanted = widths.width(alloc, cell, name_of(text, &connection.port))?;
    let port = connection.port;
    match bits_in(alloc, text, module, widths, &connection.bits)? {
        Some(bits) if bits != wanted && bits > 0 => {
            Ok(Some(Fault::Width { port, bits, wanted }))
        }
        _ => Ok(None),
    }
}

/// The first connection of a statement of a module to a cell whose widths differ.
fn misfit(
    alloc: Global,
    text: &[u8],
    module: &[u8],
    widths: &Widths,
    cell: &[u8],
    statement: &Range,
) -> Result<Option<Found>, OutOfMemory>
    ensures { IfOk result (λ o. IfSome o (λ found. IsInside statement.now found.range)) }
{
    let mut at = statement.from;
    while let Some(connection) = next_connection(text, at) {
        let fault = fault_of(alloc, text, module, widths, cell, &connection)?;
        if let Some(fault) = fault {
            return Ok(found_inside(statement, connection.bits, fault));
        }
        at = connection.to;
    }
    Ok(None)
}

/// The first connection by name of a statement of instances that is wider or narrower than its port: of a described
/// cell each port is one bit wide.
pub fn wrong_width(
    alloc: Global,
    text: &[u8],
    statement: &Range,
) -> Result<Option<Found>, OutOfMemory>
    ensures { IfOk result (λ o. IfSome o (λ found. IsInside statement.now found.range)) }
{
    let Some(cell) = cell_of(text, statement) else {
        return Ok(None);
    };
    let Some(module) = module_around(text, statement.from) else {
        return Ok(None);
    };
    let widths = widths_of(alloc, text)?;
    let cell = name_of(text, &cell);
    misfit(
        alloc,
        text,
        name_of(text, &module.name),
        &widths,
        cell,
        statement,
    )
}
