//! Statements passed one by one.
ghost use Rattle.std.specs.Prelude.{◌≡◌, ◌<◌, ◌≤◌, ◌+◌, ◌∷◌, true, Some, None, IfSome, IfNone, MatchBool, List, ℕ};
ghost use Rattle.mintc_liberty_tokens.specs.Tokens.{Token, is_value, is_item};
ghost use Rattle.mintc_liberty_tokens.specs.Scans.{IsAhead};
ghost use Rattle.mintc_liberty_tokens.specs.Statements.{past_semicolon};
ghost use Rattle.mintc_liberty_tokens.specs.Reading.{kind_of, token_of, is_sign_kind, past, value_at, value_rest};
ghost use Rattle.mintc_liberty_tokens.specs.Reading.{items_rest, call_rest, group_rest, statement_rest};

use crate::reader::Kind;
use crate::scanner::Scanner;

/// Passes a sign of this kind, if it comes next.
pub fn eat_sign(scanner: &mut Scanner, kind: Kind) -> bool
    requires { is_sign_kind kind ≡ true }
    ensures passed { MatchBool result ((w : List ℕ) → scanner.old.tokens ≡ token_of kind w ∷ scanner.new.tokens)
        ((kind ≡ kind_of scanner.old.tokens → ⊥) × (scanner.new ≡ scanner.old)) }
    ensures ahead { IsAhead scanner.old scanner.new }
{
    if scanner.kind() == kind {
        scanner.sign(kind);
        true
    } else {
        false
    }
}

/// Passes a token of a value, if one comes next, and gives what it stands for.
pub fn value_token<'a>(scanner: &mut Scanner<'a>) -> Option<&'a [u8]>
    ensures none { IfNone result ((value_at scanner.old.tokens ≡ None) × (scanner.new ≡ scanner.old)) }
    ensures some { IfSome result (λ bytes. value_at scanner.old.tokens ≡ Some (bytes.now, scanner.new.tokens)) }
    ensures ahead { IsAhead scanner.old scanner.new }
{
    match scanner.kind() {
        Kind::Word => scanner.word(),
        Kind::Text => scanner.string(),
        Kind::Opening => {
            scanner.sign(Kind::Opening);
            Some(b"(")
        }
        Kind::Closing => {
            scanner.sign(Kind::Closing);
            Some(b")")
        }
        Kind::Colon => {
            scanner.sign(Kind::Colon);
            Some(b":")
        }
        Kind::Comma => {
            scanner.sign(Kind::Comma);
            Some(b",")
        }
        _ => None,
    }
}

/// Passes a token of a value, if one comes next.
fn pass_value(scanner: &mut Scanner) -> bool
    ensures passed { MatchBool result (past is_value scanner.old.tokens ≡ Some scanner.new.tokens)
        ((past is_value scanner.old.tokens ≡ None) × (scanner.new ≡ scanner.old)) }
    ensures ahead { IsAhead scanner.old scanner.new }
{
    value_token(scanner).is_some()
}

/// Passes an item, if one comes next.
pub fn item(scanner: &mut Scanner) -> bool
    ensures passed { MatchBool result (past is_item scanner.old.tokens ≡ Some scanner.new.tokens)
        ((past is_item scanner.old.tokens ≡ None) × (scanner.new ≡ scanner.old)) }
    ensures ahead { IsAhead scanner.old scanner.new }
{
    match scanner.kind() {
        Kind::Word => scanner.word().is_some(),
        Kind::Text => scanner.string().is_some(),
        Kind::Colon => {
            scanner.sign(Kind::Colon);
            true
        }
        Kind::Comma => {
            scanner.sign(Kind::Comma);
            true
        }
        _ => false,
    }
}

/// Behind `WORD :`, passes the value and its `;`.
fn value(scanner: &mut Scanner) -> bool
    ensures passed { MatchBool result (value_rest scanner.old.tokens ≡ Some scanner.new.tokens)
        (value_rest scanner.old.tokens ≡ None) }
    ensures ahead { IsAhead scanner.old scanner.new }
{
    if !pass_value(scanner) {
        return false;
    }
    while pass_value(scanner) {}
    eat_sign(scanner, Kind::Semicolon)
}

/// Behind `WORD (`, passes the items and their parenthesis.
pub fn items(scanner: &mut Scanner) -> bool
    ensures passed { MatchBool result (items_rest scanner.old.tokens ≡ Some scanner.new.tokens)
        (items_rest scanner.old.tokens ≡ None) }
    ensures ahead { IsAhead scanner.old scanner.new }
{
    while item(scanner) {}
    eat_sign(scanner, Kind::Closing)
}

/// Passes a `;`, if it comes next.
pub fn semicolon(scanner: &mut Scanner)
    ensures passed { scanner.new.tokens ≡ past_semicolon scanner.old.tokens }
    ensures ahead { IsAhead scanner.old scanner.new }
{
    eat_sign(scanner, Kind::Semicolon);
}

/// Behind `WORD (`, passes the rest of a group or of a statement of the second form.
#[cycle(nest)]
pub fn call(scanner: &mut Scanner, room: u32) -> bool
    ensures passed { MatchBool result (call_rest room scanner.old.tokens ≡ Some scanner.new.tokens)
        (call_rest room scanner.old.tokens ≡ None) }
    ensures ahead { IsAhead scanner.old scanner.new }
{
    if !items(scanner) {
        return false;
    }
    if !eat_sign(scanner, Kind::Left) {
        semicolon(scanner);
        return true;
    }
    if room == 0 {
        return false;
    }
    if !statements(scanner, room - 1) {
        return false;
    }
    semicolon(scanner);
    true
}

/// Passes one statement.
#[cycle(nest)]
pub fn statement(scanner: &mut Scanner, room: u32) -> bool
    ensures passed { MatchBool result (statement_rest room scanner.old.tokens ≡ Some scanner.new.tokens)
        (statement_rest room scanner.old.tokens ≡ None) }
    ensures ahead { IsAhead scanner.old scanner.new }
{
    let Some(_) = scanner.word() else {
        return false;
    };
    if eat_sign(scanner, Kind::Colon) {
        return value(scanner);
    }
    if !eat_sign(scanner, Kind::Opening) {
        return false;
    }
    call(scanner, room)
}

/// Behind `{`, passes the statements and their `}`.
#[cycle(nest)]
fn statements(scanner: &mut Scanner, room: u32) -> bool
    ensures passed { MatchBool result (group_rest room scanner.old.tokens ≡ Some scanner.new.tokens)
        (group_rest room scanner.old.tokens ≡ None) }
    ensures ahead { IsAhead scanner.old scanner.new }
{
    loop {
        if eat_sign(scanner, Kind::Right) {
            return true;
        }
        if !statement(scanner, room) {
            return false;
        }
    }
}
