//! Expressions, with braces within braces.
ghost use Rattle.std.specs.Prelude.{◌≡◌, ◌++◌, Some, None, MatchResult, IfOk, OnOk, length};
ghost use Rattle.mintc_verilog_expressions.specs.Expressions.{repeated};
ghost use Rattle.mintc_text.specs.ReadErrors.{Halts};
ghost use Rattle.mintc_verilog_expressions.specs.Reading.{one_piece, plain_at, expression, items, inside, turns};

use crate::lists::single;
use crate::reader::Reader;
use mintc_netlist::Piece;
use mintc_text::limits::MOST_WIDTH;
use mintc_text::{Name, OutOfMemory, ReadError};
use std::alloc::Global;

/// An expression without braces, as a list of one piece.
fn one(alloc: Global, reader: &mut Reader) -> Result<Vec<Piece>, ReadError>
    ensures { MatchResult result (λ v. one_piece (plain_at reader.old) ≡ Some (v.items, reader.new))
        (Halts (one_piece (plain_at reader.old) ≡ None)) }
{
    let piece = reader.plain(alloc)?;
    let Some(piece) = piece else {
        return Err(ReadError::Malformed);
    };
    Ok(single(alloc, piece)?)
}

/// A piece once more.
fn copy(alloc: Global, piece: &Piece) -> Result<Piece, OutOfMemory>
    ensures { IfOk result (λ p. p ≡ piece.now) }
{
    match piece {
        Piece::Net { name } => {
            let name = name.copy(alloc)?;
            Ok(Piece::Net { name })
        }
        Piece::Bit { name, at } => {
            let name = name.copy(alloc)?;
            Ok(Piece::Bit { name, at: *at })
        }
        Piece::Part { name, msb, lsb } => {
            let name = name.copy(alloc)?;
            Ok(Piece::Part {
                name,
                msb: *msb,
                lsb: *lsb,
            })
        }
        Piece::Constant { width } => Ok(Piece::Constant { width: *width }),
    }
}

/// Puts copies of pieces at the end of others.
fn append_copy(alloc: Global, out: &mut Vec<Piece>, pieces: &[Piece]) -> Result<(), OutOfMemory>
    ensures { OnOk result (out.new.items ≡ out.old.items ++ pieces.now) }
{
    for piece in pieces {
        let piece = copy(alloc, piece)?;
        out.push(piece)?;
    }
    Ok(())
}

/// The pieces so many times.
fn repeat(alloc: Global, pieces: Vec<Piece>, times: u32) -> Result<Vec<Piece>, OutOfMemory>
    ensures { IfOk result (λ v. v.items ≡ repeated times pieces.items) }
{
    let mut out = Vec::new(alloc);
    for _turn in 0..times {
        append_copy(alloc, &mut out, &pieces)?;
    }
    Ok(out)
}

/// Expressions with commas.
#[cycle(nest)]
fn read_items(alloc: Global, reader: &mut Reader, depth: u32) -> Result<Vec<Piece>, ReadError>
    ensures { MatchResult result (λ v. items (expression depth) (length reader.old) reader.old
        ≡ Some (v.items, reader.new)) (Halts (items (expression depth) (length reader.old) reader.old ≡ None)) }
{
    let mut out = Vec::new(alloc);
    loop {
        let mut more = read_expression(alloc, reader, depth)?;
        if MOST_WIDTH - out.len() < more.len() {
            return Err(ReadError::Malformed);
        }
        out.append(&mut more)?;
        if !reader.eat(b',') {
            return Ok(out);
        }
    }
}

/// An expression with at most so many braces open.
#[cycle(nest)]
pub fn read_expression(
    alloc: Global,
    reader: &mut Reader,
    depth: u32,
) -> Result<Vec<Piece>, ReadError>
    ensures { MatchResult result (λ v. expression depth reader.old ≡ Some (v.items, reader.new))
        (Halts (expression depth reader.old ≡ None)) }
{
    if depth == 0 {
        return one(alloc, reader);
    }
    if !reader.eat(b'{') {
        return one(alloc, reader);
    }
    read_inside(alloc, reader, depth - 1)
}

/// What stands behind a brace, with at most so many more open.
#[cycle(nest)]
fn read_inside(alloc: Global, reader: &mut Reader, depth: u32) -> Result<Vec<Piece>, ReadError>
    ensures { MatchResult result (λ v. inside depth reader.old ≡ Some (v.items, reader.new))
        (Halts (inside depth reader.old ≡ None)) }
{
    if let Some(times) = reader.number() {
        return read_turns(alloc, reader, depth, times);
    }
    let pieces = read_items(alloc, reader, depth)?;
    if !reader.eat(b'}') {
        return Err(ReadError::Malformed);
    }
    Ok(pieces)
}

/// What stands behind a brace and a number.
#[cycle(nest)]
fn read_turns(
    alloc: Global,
    reader: &mut Reader,
    depth: u32,
    times: u32,
) -> Result<Vec<Piece>, ReadError>
    ensures { MatchResult result (λ v. turns depth times reader.old ≡ Some (v.items, reader.new))
        (Halts (turns depth times reader.old ≡ None)) }
{
    if !reader.eat(b'{') {
        return Err(ReadError::Malformed);
    }
    if depth == 0 {
        return Err(ReadError::Malformed);
    }
    let pieces = read_items(alloc, reader, depth - 1)?;
    if times == 0 {
        return Err(ReadError::Malformed);
    }
    if pieces.len() > MOST_WIDTH / times as usize {
        return Err(ReadError::Malformed);
    }
    if !reader.eat(b'}') {
        return Err(ReadError::Malformed);
    }
    if !reader.eat(b'}') {
        return Err(ReadError::Malformed);
    }
    Ok(repeat(alloc, pieces, times)?)
}
