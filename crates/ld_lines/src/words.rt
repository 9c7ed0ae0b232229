//! The words of a command line.
#![tactic(auto)]

ghost use Rattle.std.specs.Prelude.{◌≡◌, Err, IfErr, IfOk, None, Some};
ghost use Rattle.ld_lines.specs.Words.{identifier_in};

use crate::fault::LineFault;
use json::{Reader, Scratch, Token};
use ld_base::{Id, PlainText};
use ld_value::{Moment, is_uri, read_moment};
use std::alloc::Global;

/// The elements of a JSON array, which are read one after the other where they stand, and the
/// allocator of those that are kept. A call that gives nothing may have passed an element over.
#[derive(Drop)]
pub(crate) struct Words<'a> {
    reader: Reader<'a>,
    alloc: Global,
}

impl<'a> Words<'a> {
    ghost use Rattle.std.specs.Prelude.{◌≡◌, Err, IfOk, None, OnErr, Some};
    ghost use Rattle.ld_value.specs.Calendar.{IsMoment};
    ghost use Rattle.json.specs.Lex.{tokens};
    ghost use Rattle.serde_json.specs.Data.{no_items};
    ghost use Rattle.ld_lines.specs.Elements.{left_of, IsBad, ReadsForm};
    ghost use Rattle.ld_lines.specs.Texts.{no_text, texts_of_array};
    ghost use Rattle.ld_lines.specs.Words.{any_text, one_identifier, one_uri, person_or_none, one_moment, ended_with};

    /// The words of the array that the text is. A word with escapes is unescaped into the scratch.
    ///
    /// # Errors
    /// `BadLine` only where the text begins no array, `NoMemory` only where the scratch cannot grow
    /// to the length of the text.
    pub(crate) fn of(
        alloc: Global,
        text: &'a str,
        scratch: &'a mut Scratch,
    ) -> Result<Words<'a>, LineFault>
        ensures ok { IfOk result (λ words. left_of words ≡ texts_of_array (tokens text.now)) }
        ensures bad { result ≡ Err LineFault.BadLine → texts_of_array (tokens text.now) ≡ no_text }
    {
        let Ok(mut reader) = Reader::new(text, scratch) else {
            return Err(LineFault::NoMemory);
        };
        match reader.next() {
            Some(Token::BeginArray) => Ok(Words { reader, alloc }),
            _ => Err(LineFault::BadLine),
        }
    }

    /// A text, where it stands.
    pub(crate) fn text(&mut self) -> Result<&'a str, LineFault>
        ensures ok { IfOk result
            (λ text. any_text (left_of self.old) ≡ Some (text.now, left_of self.new)) }
        ensures bad { OnErr result (any_text (left_of self.old) ≡ None) }
    {
        match self.reader.next() {
            Some(Token::String(text)) => Ok(text),
            _ => Err(LineFault::BadLine),
        }
    }

    /// A text that is kept.
    pub(crate) fn plain_text(&mut self) -> Result<PlainText, LineFault>
        ensures { ReadsForm any_text self.old result self.new }
    {
        let text = self.text()?;
        kept(self.alloc, text)
    }

    /// An identifier.
    pub(crate) fn identifier(&mut self) -> Result<Id, LineFault>
        ensures { ReadsForm one_identifier self.old result self.new }
    {
        let text = self.text()?;
        identifier_of(self.alloc, text)
    }

    /// A uri.
    pub(crate) fn uri(&mut self) -> Result<PlainText, LineFault>
        ensures { ReadsForm one_uri self.old result self.new }
    {
        let text = self.text()?;
        if !is_uri(text.as_bytes()) {
            return Err(LineFault::BadLine);
        }
        kept(self.alloc, text)
    }

    /// A person, or none where the word is empty.
    pub(crate) fn person_or_none(&mut self) -> Result<Option<Id>, LineFault>
        ensures { ReadsForm person_or_none self.old result self.new }
    {
        let text = self.text()?;
        if text.is_empty() {
            return Ok(None);
        }
        Ok(Some(identifier_of(self.alloc, text)?))
    }

    /// A moment.
    pub(crate) fn moment(&mut self) -> Result<Moment, LineFault>
        ensures reads { ReadsForm one_moment self.old result self.new }
        ensures years { IfOk result (λ m. IsMoment m.0) }
    {
        read_moment(self.text()?).ok_or(LineFault::BadLine)
    }

    /// The value, if no word is left.
    pub(crate) fn end<T: Drop>(&mut self, value: T) -> Result<T, LineFault>
        ensures ok { IfOk result (λ found. (found ≡ value) × (left_of self.old ≡ no_items)) }
        ensures bad { IsBad (ended_with value) self.old result }
    {
        if self.reader.take_end_array() && self.reader.next().is_none() {
            return Ok(value);
        }
        Err(LineFault::BadLine)
    }
}

/// A text of its own with these bytes.
fn kept(alloc: Global, text: &str) -> Result<PlainText, LineFault>
    ensures ok { IfOk result (λ kept. kept ≡ text.now) }
    ensures err { IfErr result (λ fault. fault ≡ LineFault.NoMemory) }
{
    PlainText::of(alloc, text).map_err(|_| LineFault::NoMemory)
}

/// The identifier that the text is.
fn identifier_of(alloc: Global, text: &str) -> Result<Id, LineFault>
    ensures ok { IfOk result (λ id. identifier_in text.now ≡ Some id) }
    ensures bad { result ≡ Err LineFault.BadLine → identifier_in text.now ≡ None }
{
    let Ok(id) = Id::from_text(alloc, text) else {
        return Err(LineFault::NoMemory);
    };
    id.ok_or(LineFault::BadLine)
}
