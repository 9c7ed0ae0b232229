//! Lines of words that are printed and counted.
ghost use Rattle.std.specs.Prelude.{◌≡◌, ◌++◌, [], OnOk, decimal};
ghost use Rattle.ld_json.specs.Print.{json_text};
ghost use Rattle.ld_value.specs.Calendar.{IsMoment, text_of_moment};
ghost use Rattle.ld_replies.specs.Printed.{begun, worded};

use itoa::Buffer;
use ld_base::{NoMemory, Text};
use ld_json::print_text;
use ld_value::{Moment, print_moment};
use std::alloc::Global;
use std::marker::Model;

/// Lines of words, each behind the end of the line before it. They are seen by contracts as their
/// text and their number. Where memory runs out, a part of what was to be added may stand there.
#[derive(Drop)]
pub(crate) struct Lines {
    text: Text,
    count: u32,
}

impl Model for Lines {
    ghost use Rattle.ld_tree.specs.Telling.{Printed};

    ghost Value = { Printed };

    ghost view = { λ s. record { bytes = s.text.bytes; count = s.count } };
}

impl Lines {
    /// No lines, which take no memory.
    pub(crate) fn new(alloc: Global) -> Lines
        ensures { result ≡ record { bytes = []; count = 0 } }
    {
        Lines {
            text: Text::new(alloc),
            count: 0,
        }
    }

    /// The number of lines.
    pub(crate) fn count(&self) -> u32
        ensures { result ≡ self.now.count }
    {
        self.count
    }

    /// The text of the lines.
    pub(crate) fn as_str(&self) -> &str
        ensures { result.now ≡ self.now.bytes }
    {
        self.text.as_str()
    }

    /// Begins a line with the word.
    pub(crate) fn begin(&mut self, word: &str) -> Result<(), NoMemory>
        ensures { OnOk result (self.new ≡ begun self.old word.now) }
    {
        let Some(count) = self.count.checked_add(1) else {
            return Err(NoMemory);
        };
        self.text.push("\n")?;
        self.text.push(word)?;
        self.count = count;
        Ok(())
    }

    /// Adds the word to the line.
    pub(crate) fn add(&mut self, word: &str) -> Result<(), NoMemory>
        ensures { OnOk result (self.new ≡ worded self.old word.now) }
    {
        self.text.push(" ")?;
        self.text.push(word)?;
        Ok(())
    }

    /// Adds the number to the line.
    pub(crate) fn add_number(&mut self, number: u64) -> Result<(), NoMemory>
        ensures { OnOk result (self.new ≡ worded self.old (decimal number)) }
    {
        self.add(Buffer::new().format(number))
    }

    /// Adds a name with the number behind it to the line.
    pub(crate) fn add_named(&mut self, name: &str, number: u64) -> Result<(), NoMemory>
        ensures { OnOk result (self.new ≡ worded self.old (name.now ++ decimal number)) }
    {
        self.add(name)?;
        self.text.push(Buffer::new().format(number))?;
        Ok(())
    }

    /// Adds the moment to the line.
    pub(crate) fn add_moment(&mut self, moment: Moment) -> Result<(), NoMemory>
        requires { IsMoment moment.0 }
        ensures { OnOk result (self.new ≡ worded self.old (text_of_moment moment.0)) }
    {
        self.text.push(" ")?;
        self.text.push_ascii(&print_moment(moment))?;
        Ok(())
    }

    /// Adds the text to the line as a JSON text.
    pub(crate) fn add_text(&mut self, alloc: Global, text: &str) -> Result<(), NoMemory>
        ensures { OnOk result (self.new ≡ worded self.old (json_text text.now)) }
    {
        self.text.push(" ")?;
        print_text(alloc, text, &mut self.text)?;
        Ok(())
    }
}
