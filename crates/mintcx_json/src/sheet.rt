//! A value of JSON that is being written.
ghost use Rattle.std.specs.Prelude.{◌≡◌, ◌++◌, [], ◌∷◌, decimal, IfOk, OnOk};
ghost use Rattle.std.specs.Fmt.{signed_decimal};
ghost use Rattle.std.specs.Str.Lossy.{utf8_lossy};
ghost use Rattle.json.specs.Lex.{tokens};
ghost use Rattle.json.specs.Print.{print};
ghost use Rattle.json.specs.Token.{begin_array, begin_object, end_array, end_object, key, number, string};

use itoa::Buffer;
use json::Writer;
use mintc_text::{Bytes, OutOfMemory};
use std::alloc::Global;
use std::marker::Model;

/// What has been written, seen as its tokens.
#[derive(Drop)]
pub(crate) struct Sheet {
    writer: Writer,
}

impl Model for Sheet {
    ghost use Rattle.std.specs.Prelude.{◌≡◌, [], List};
    ghost use Rattle.json.specs.Token.{Token, tokens_code};

    ghost Value = { List Token };

    ghost coded = { tokens_code };

    ghost view = { λ s. s.writer.tokens };

    ghost invariant = { λ s. s.writer.before ≡ [] };
}

impl Sheet {
    /// Nothing yet. It takes no memory.
    pub(crate) fn new(alloc: Global) -> Sheet
        ensures { result ≡ [] }
    {
        Sheet {
            writer: Writer::new(Vec::new(alloc)),
        }
    }

    /// Begins an object.
    pub(crate) fn open(&mut self) -> Result<(), OutOfMemory>
        ensures { OnOk result (self.new ≡ self.old ++ begin_object ∷ []) }
    {
        Ok(self.writer.begin_object()?)
    }

    /// Ends an object.
    pub(crate) fn close(&mut self) -> Result<(), OutOfMemory>
        ensures { OnOk result (self.new ≡ self.old ++ end_object ∷ []) }
    {
        Ok(self.writer.end_object()?)
    }

    /// Begins an array.
    pub(crate) fn open_array(&mut self) -> Result<(), OutOfMemory>
        ensures { OnOk result (self.new ≡ self.old ++ begin_array ∷ []) }
    {
        Ok(self.writer.begin_array()?)
    }

    /// Ends an array.
    pub(crate) fn close_array(&mut self) -> Result<(), OutOfMemory>
        ensures { OnOk result (self.new ≡ self.old ++ end_array ∷ []) }
    {
        Ok(self.writer.end_array()?)
    }

    /// Writes a key.
    pub(crate) fn key(&mut self, word: &str) -> Result<(), OutOfMemory>
        ensures { OnOk result (self.new ≡ self.old ++ key word.now ∷ []) }
    {
        Ok(self.writer.key(word)?)
    }

    /// Writes a word as a string.
    pub(crate) fn word(&mut self, word: &str) -> Result<(), OutOfMemory>
        ensures { OnOk result (self.new ≡ self.old ++ string word.now ∷ []) }
    {
        Ok(self.writer.string(word)?)
    }

    /// Writes a name as a string; what of it isn't UTF-8 has the replacement character in its place.
    pub(crate) fn name(&mut self, alloc: Global, name: &[u8]) -> Result<(), OutOfMemory>
        ensures { OnOk result (self.new ≡ self.old ++ string (utf8_lossy name.now) ∷ []) }
    {
        let text = String::from_utf8_lossy(alloc, name)?;
        Ok(self.writer.string(text.as_str())?)
    }

    /// Writes a whole number.
    pub(crate) fn whole(&mut self, value: i64) -> Result<(), OutOfMemory>
        ensures { OnOk result (self.new ≡ self.old ++ number (signed_decimal value) ∷ []) }
    {
        Ok(self.writer.i64(value)?)
    }

    /// Writes a whole number of 128 bits.
    pub(crate) fn long(&mut self, value: i128) -> Result<(), OutOfMemory>
        ensures { OnOk result (self.new ≡ self.old ++ number (signed_decimal value) ∷ []) }
    {
        let mut buffer = Buffer::new();
        Ok(self.writer.number(buffer.format(value))?)
    }

    /// Writes a count.
    pub(crate) fn count(&mut self, count: u64) -> Result<(), OutOfMemory>
        ensures { OnOk result (self.new ≡ self.old ++ number (decimal count) ∷ []) }
    {
        Ok(self.writer.u64(count)?)
    }

    /// The text, with a line feed at its end.
    pub(crate) fn into_text(self) -> Result<Bytes, OutOfMemory>
        ensures text { IfOk result (λ text. text ≡ print self ++ 10 ∷ []) }
        ensures reads_back { tokens (print self) ≡ self }
    {
        let Sheet { writer } = self;
        let mut bytes = writer.into_inner();
        bytes.push(b'\n')?;
        Ok(Bytes::new(bytes))
    }
}
