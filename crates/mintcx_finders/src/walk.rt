//! Tokens, names and statements one after another.
ghost use Rattle.std.specs.Prelude.{◌≡◌, ◌≤◌, IfSome, length};
ghost use Rattle.mintc_vlex.specs.Tokens.{LiesWithin};

use crate::found::{Class, bytes_of, name_of};
use mintc_vlex::{Token, TokenKind, is_endmodule, is_semicolon, next_token, statement_end};
use mintcx_places::Range;

/// Words that begin statements without names.
const OTHERS: &[&[u8]] = &[
    b"endmodule",
    b"inout",
    b"reg",
    b"assign",
    b"parameter",
    b"localparam",
    b"defparam",
    b"always",
    b"initial",
    b"generate",
    b"endgenerate",
    b"function",
    b"task",
    b"specify",
];

/// A module: its name, and where its second statement begins.
#[derive(Clone, Copy)]
pub(crate) struct Module {
    pub(crate) name: Range,
    pub(crate) body: usize,
}

/// The bytes of a token.
pub(crate) fn range_of(token: &Token) -> Range
    ensures from { result.from ≡ token.now.from }
    ensures to { result.to ≡ token.now.to }
{
    Range {
        from: token.from,
        to: token.to,
    }
}

/// Whether a token is a name or a word.
pub(crate) fn is_name(token: &Token) -> bool {
    matches!(token.kind, TokenKind::Word | TokenKind::Escaped)
}

/// Whether a token is a word that isn't escaped.
pub(crate) fn is_word(text: &[u8], token: &Token, word: &[u8]) -> bool {
    token.kind == TokenKind::Word && bytes_of(text, &range_of(token)) == word
}

/// Whether a token is a sign.
pub(crate) fn is_sign(text: &[u8], token: &Token, sign: u8) -> bool {
    token.kind == TokenKind::Sign && bytes_of(text, &range_of(token)).starts_with(&[sign])
}

/// Whether a token is one of the words that begin statements without names.
fn is_other(text: &[u8], token: &Token) -> bool {
    for word in OTHERS {
        if is_word(text, token, word) {
            return true;
        }
    }
    false
}

/// What the names of a statement stand for, by its first token. None of a statement that gives none.
pub(crate) fn class_of(text: &[u8], first: &Token) -> Option<Class> {
    if is_word(text, first, b"module") {
        Some(Class::Module)
    } else if is_word(text, first, b"input") || is_word(text, first, b"output") {
        Some(Class::Port)
    } else if is_word(text, first, b"wire") || is_word(text, first, b"tri") {
        Some(Class::Net)
    } else if is_word(text, first, b"supply0") || is_word(text, first, b"supply1") {
        Some(Class::Net)
    } else if !is_name(first) || is_other(text, first) {
        None
    } else {
        Some(Class::Instance)
    }
}

/// Inside of how many brackets the tokens behind one stand.
fn depth_behind(text: &[u8], token: &Token, depth: usize) -> usize {
    if is_sign(text, token, b'(') || is_sign(text, token, b'[') || is_sign(text, token, b'{') {
        depth.saturating_add(1)
    } else if is_sign(text, token, b')')
        || is_sign(text, token, b']')
        || is_sign(text, token, b'}')
    {
        depth.saturating_sub(1)
    } else {
        depth
    }
}

/// The next name of a statement outside of brackets, behind a token outside of them. None where its `;` comes first.
pub(crate) fn next_outer(text: &[u8], from: usize) -> Option<Token>
    ensures behind { IfSome result (λ t. from ≤ t.from) }
    ensures within { IfSome result (LiesWithin (length text.now)) }
{
    let mut at = from;
    let mut depth = 0;
    while let Some(token) = next_token(text, at) {
        if is_semicolon(text, &token) {
            return None;
        }
        if depth == 0 && is_name(&token) {
            return Some(token);
        }
        depth = depth_behind(text, &token, depth);
        at = token.to;
    }
    None
}

/// The name of the module that a statement begins.
pub(crate) fn module_name<'a>(text: &'a [u8], first: &Token) -> &'a [u8] {
    match next_outer(text, first.to) {
        Some(name) => name_of(text, &range_of(&name)),
        None => b"",
    }
}

/// The module that a statement begins, or the one that it stands in behind others.
fn module_from(text: &[u8], first: &Token, around: Option<Module>) -> Option<Module>
    requires { LiesWithin (length text.now) first.now }
{
    if is_endmodule(text, first) {
        return None;
    }
    if !is_word(text, first, b"module") {
        return around;
    }
    let name = next_outer(text, first.to)?;
    Some(Module {
        name: range_of(&name),
        body: statement_end(text, first),
    })
}

/// The module that a place of a text stands in.
pub(crate) fn module_around(text: &[u8], at: usize) -> Option<Module> {
    let mut module = None;
    let mut from = 0;
    while let Some(first) = next_token(text, from) {
        if first.from > at {
            return module;
        }
        module = module_from(text, &first, module);
        from = statement_end(text, &first);
    }
    module
}

/// Whether a module of a name has an instance of a cell.
pub(crate) fn is_holder(text: &[u8], name: &[u8], cell: &[u8]) -> bool {
    let mut module = None;
    let mut from = 0;
    while let Some(first) = next_token(text, from) {
        module = module_from(text, &first, module);
        if is_named(text, module, name)
            && class_of(text, &first) == Some(Class::Instance)
            && name_of(text, &range_of(&first)) == cell
        {
            return true;
        }
        from = statement_end(text, &first);
    }
    false
}

/// Whether a module has a name.
fn is_named(text: &[u8], module: Option<Module>, name: &[u8]) -> bool {
    match module {
        Some(module) => name_of(text, &module.name) == name,
        None => false,
    }
}
