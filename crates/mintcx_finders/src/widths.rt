//! How wide nets and ports are, as far as the netlist alone tells.
ghost use Rattle.std.specs.Prelude.{◌<◌, ◌≤◌, IfSome, length};

use crate::drives::port_key;
use crate::found::{Class, bytes_of, name_of};
use crate::pins::is_port;
use crate::walk::{class_of, is_sign, is_word, module_name, range_of};
use mintc_text::{OutOfMemory, leading_digits};
use mintc_text_names::NameSet;
use mintc_vlex::{Token, TokenKind, is_semicolon, next_token, statement_end};
use std::alloc::Global;

/// The nets and ports of all modules that are declared with a range, and how wide they are.
#[derive(Drop)]
pub(crate) struct Widths {
    keys: NameSet,
    bits: Vec<u64>,
}

/// A bit or a range in brackets: how wide it is, and the place behind it.
#[derive(Clone, Copy)]
pub(crate) struct Bracket {
    pub(crate) width: u64,
    pub(crate) to: usize,
}

/// The number that a token of digits writes.
fn number_of(text: &[u8], token: &Token) -> Option<u64> {
    if token.kind == TokenKind::Digits {
        Some(leading_digits(bytes_of(text, &range_of(token))).0)
    } else {
        None
    }
}

/// How wide a range is.
fn width_of(first: u64, last: u64) -> u64 {
    let apart = if first < last {
        last - first
    } else {
        first - last
    };
    apart.saturating_add(1)
}

/// What stands in brackets behind the left one.
pub(crate) fn bracket_behind(text: &[u8], left: &Token) -> Option<Bracket>
    ensures behind { IfSome result (λ b. left.now.to < b.to) }
    ensures within { IfSome result (λ b. b.to ≤ length text.now) }
{
    let first = next_token(text, left.to)?;
    let number = number_of(text, &first)?;
    let sign = next_token(text, first.to)?;
    if is_sign(text, &sign, b']') {
        return Some(Bracket {
            width: 1,
            to: sign.to,
        });
    }
    let last = next_token(text, sign.to)?;
    let close = next_token(text, last.to)?;
    Some(Bracket {
        width: width_of(number, number_of(text, &last)?),
        to: close.to,
    })
}

/// How wide the names behind a token are, and the place behind the token or its brackets.
fn range_behind(text: &[u8], token: &Token, width: u64) -> Bracket
    requires { token.now.to ≤ length text.now }
    ensures behind { token.now.to ≤ result.to }
    ensures within { result.to ≤ length text.now }
{
    if is_sign(text, token, b'[') {
        if let Some(bracket) = bracket_behind(text, token) {
            return bracket;
        }
    }
    let is_anew = is_word(text, token, b"input") || is_word(text, token, b"output");
    Bracket {
        width: if is_anew { 1 } else { width },
        to: token.to,
    }
}

impl Widths {
    /// How wide a net or a port of a module is.
    pub(crate) fn width(
        &self,
        alloc: Global,
        module: &[u8],
        name: &[u8],
    ) -> Result<u64, OutOfMemory> {
        let key = port_key(alloc, module, name)?;
        let Some(place) = self.keys.find(key.items()) else {
            return Ok(1);
        };
        match self.bits.get(place) {
            Some(width) => Ok(*width),
            None => Ok(1),
        }
    }

    /// Takes in a name, unless it is there.
    fn add(
        &mut self,
        alloc: Global,
        module: &[u8],
        name: &[u8],
        width: u64,
    ) -> Result<(), OutOfMemory> {
        let key = port_key(alloc, module, name)?;
        if self.keys.add(alloc, key.items())? {
            self.bits.push(width)?;
        }
        Ok(())
    }

    /// Takes in the names that a statement declares with a range, from a place on.
    fn add_from(
        &mut self,
        alloc: Global,
        text: &[u8],
        module: &[u8],
        from: usize,
    ) -> Result<(), OutOfMemory> {
        let mut at = from;
        let mut width = 1;
        while let Some(token) = next_token(text, at) {
            if is_semicolon(text, &token) {
                return Ok(());
            }
            let behind = range_behind(text, &token, width);
            width = behind.width;
            at = behind.to;
            if width > 1 && is_port(text, &token) {
                self.add(alloc, module, name_of(text, &range_of(&token)), width)?;
            }
        }
        Ok(())
    }
}

/// Whether a statement declares nets or ports.
fn declares(text: &[u8], first: &Token) -> bool {
    matches!(
        class_of(text, first),
        Some(Class::Module | Class::Port | Class::Net)
    )
}

/// How wide the nets and ports of all modules are.
pub(crate) fn widths_of(alloc: Global, text: &[u8]) -> Result<Widths, OutOfMemory> {
    let mut widths = Widths {
        keys: NameSet::new(alloc),
        bits: Vec::new(alloc),
    };
    let mut module: &[u8] = b"";
    let mut from = 0;
    while let Some(first) = next_token(text, from) {
        if is_word(text, &first, b"module") {
            module = module_name(text, &first);
        }
        if declares(text, &first) {
            widths.add_from(alloc, text, module, first.from)?;
        }
        from = statement_end(text, &first);
    }
    Ok(widths)
}
