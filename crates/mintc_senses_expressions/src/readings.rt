//! Reading an expression symbol by symbol: the sense of one name in it, and no tree.
ghost use Rattle.std.specs.Prelude.{◌≡◌, ◌<◌, ◌≤◌, ◌+◌, ◌∷◌, List, IfOk, IfSome, MatchBool, MatchOption, Some, None};
ghost use Rattle.std.specs.Prelude.{length, slice_index};
ghost use Rattle.mintc_senses_expressions.specs.Expressions.{Expression, CoverChanges};
ghost use Rattle.mintc_senses_expressions.specs.Symbols.{Symbol, ended, behind};
ghost use Rattle.mintc_senses_expressions.specs.Grammar.{IsExpressionOf};
ghost use Rattle.mintc_senses_expressions.specs.Reading.{on_senses, opened, closed, sign_step, finished, given, among};
ghost use Rattle.mintc_senses_expressions.specs.Reading.{start, some_of, function_sense};
ghost use Rattle.mintc_senses_expressions.specs.Seen.{seen, operated, in_word, read_for, read_from};

use crate::levels::Level;
use crate::signs::{Sign, is_word_byte, sign_of};
use crate::transitions::Transitions;
use mintc_text::OutOfMemory;
use mintc_text_scan::is_white;
use std::alloc::Global;

/// How many parentheses may be open.
const MOST_OPEN: usize = 64;

/// The level that is read, and those around it from the outside in.
#[derive(Drop)]
pub(crate) struct Reading {
    level: Level,
    outside: Vec<Level>,
}

/// The sense of a name in a word.
fn in_word(name: &[u8], word: &[u8]) -> Transitions
    ensures { result ≡ in_word name.now word.now }
{
    if word == b"0".as_slice() {
        Transitions::none()
    } else if word == b"1".as_slice() {
        Transitions::none()
    } else if word == name {
        Transitions::same()
    } else {
        Transitions::none()
    }
}

impl Reading {
    /// Before any symbol.
    fn new(alloc: Global) -> Reading
        ensures { seen result ≡ start }
    {
        Reading {
            level: Level::empty(),
            outside: Vec::new(alloc),
        }
    }

    /// Reads the word that ends here, if there is one.
    fn word(&mut self, name: &[u8], word: &[u8])
        ensures { (ys : List Symbol) → read_for name.now (ended word.now ys) (seen self.old)
            ≡ read_for name.now ys (seen self.new) }
    {
        if word.is_empty() {
            return;
        }
        self.level = self.level.ready().with_operand(in_word(name, word));
    }

    /// Reads a parenthesis that opens.
    fn open(&mut self) -> Result<bool, OutOfMemory>
        ensures { IfOk result (λ b. MatchBool b (opened on_senses (seen self.old) ≡ Some (seen self.new))
            (opened on_senses (seen self.old) ≡ None)) }
    {
        if self.outside.len() >= MOST_OPEN {
            return Ok(false);
        }
        self.outside.push(self.level.ready())?;
        self.level = Level::empty();
        Ok(true)
    }

    /// Reads a parenthesis that closes.
    fn close(&mut self) -> bool
        ensures { MatchBool result (closed on_senses (seen self.old) ≡ Some (seen self.new))
            (closed on_senses (seen self.old) ≡ None) }
    {
        let Some(operand) = self.level.sum() else {
            return false;
        };
        match self.outside.pop() {
            Some(outer) => {
                self.level = outer.with_operand(operand);
                true
            }
            None => false,
        }
    }

    /// Reads a sign that is no parenthesis.
    fn operate(&mut self, sign: Sign) -> bool
        ensures { MatchBool result (operated sign (seen self.old) ≡ Some (seen self.new))
            (operated sign (seen self.old) ≡ None) }
    {
        match self.level.behind(sign) {
            Some(level) => {
                self.level = level;
                true
            }
            None => false,
        }
    }

    /// Reads a sign.
    fn sign(&mut self, sign: Sign) -> Result<bool, OutOfMemory>
        ensures { IfOk result (λ b. MatchBool b (sign_step on_senses sign (seen self.old) ≡ Some (seen self.new))
            (sign_step on_senses sign (seen self.old) ≡ None)) }
    {
        match sign {
            Sign::Opening => self.open(),
            Sign::Closing => Ok(self.close()),
            sign => Ok(self.operate(sign)),
        }
    }

    /// Reads a byte that is in no word.
    fn behind(&mut self, name: &[u8], byte: u8) -> Result<bool, OutOfMemory>
        ensures { IfOk result (λ b. MatchBool b
            ((ys : List Symbol) → read_for name.now (behind byte ys) (seen self.old)
            ≡ read_for name.now ys (seen self.new))
            ((ys : List Symbol) → read_for name.now (behind byte ys) (seen self.old) ≡ None)) }
    {
        if is_white(byte) {
            Ok(true)
        } else {
            self.sign(sign_of(byte))
        }
    }

    /// Reads the byte at a place, where the word that may go on there begins at another, and gives where the word
    /// begins that may go on behind it; none where the text is no expression.
    fn byte(
        &mut self,
        name: &[u8],
        text: &[u8],
        from: usize,
        place: usize,
    ) -> Result<Option<usize>, OutOfMemory>
        requires word { from ≤ place }
        requires within { place < length text.now }
        ensures { IfOk result (λ o. MatchOption o (read_from name.now text.now from place (seen self.old) ≡ None)
            (λ next. (next ≤ place + 1) × (read_from name.now text.now from place (seen self.old)
            ≡ read_from name.now text.now next (place + 1) (seen self.new)))) }
    {
        let byte = text[place];
        if is_word_byte(byte) {
            return Ok(Some(from));
        }
        self.word(name, &text[from..place]);
        if self.behind(name, byte)? {
            Ok(Some(place + 1))
        } else {
            Ok(None)
        }
    }

    /// What all symbols came to.
    fn finished(&self) -> Option<Transitions>
        ensures { result ≡ finished on_senses (seen self.now).level (seen self.now).outside }
    {
        if self.outside.is_empty() {
            self.level.sum()
        } else {
            None
        }
    }
}

/// The sense of a name in a text that may be an expression, whatever is read of it.
fn read(alloc: Global, text: &[u8], name: &[u8]) -> Result<Option<Transitions>, OutOfMemory>
    ensures { IfOk result (λ o. o ≡ read_from name.now text.now 0 0 start) }
{
    let mut reading = Reading::new(alloc);
    let mut from = 0;
    for place in 0..text.len() {
        match reading.byte(name, text, from, place)? {
            Some(next) => {
                from = next;
            }
            None => return Ok(None),
        }
    }
    reading.word(name, &text[from..]);
    Ok(reading.finished())
}

/// The sense of a name in the function that a text says: which edges of the name may make which edges of the
/// function's value. None where the text is no expression, or one without the name.
///
/// An expression has names, `0`, `1`, parentheses at most 64 deep, and `!` before and `'` behind what they invert;
/// `^` is exclusive or, `*`, `&` or no sign at all is and, `+` or `|` is or, in this order. Each transition that the
/// value makes when the name alone changes is among those given.
pub fn function_sense(
    alloc: Global,
    text: &[u8],
    name: &[u8],
) -> Result<Option<Transitions>, OutOfMemory>
    ensures sense { IfOk result (λ o. o ≡ function_sense text.now name.now) }
    ensures covers { IfOk result (λ o. IfSome o
        (λ t. (e : Expression) → IsExpressionOf text.now e → CoverChanges name.now e t)) }
{
    match read(alloc, text, name)? {
        Some(sense) => if sense.has_some() {
            Ok(Some(sense))
        } else {
            Ok(None)
        },
        None => Ok(None),
    }
}
