//! A pen: it writes a text or, so that memory of the right length may be taken for it first, only counts its bytes.

ghost use Rattle.std.specs.Prelude.{◌≡◌, ◌<◌, [], OnOk, IfOk, decimal};
ghost use Rattle.html_pages.specs.Dates.{date_of, NO_DATE};
ghost use Rattle.html_pages.specs.Inks.{Counted, Written, inked, amount, text_of};

use crate::dates::date_text;
use itoa::Buffer;
use std::alloc::Global;
use std::marker::Model;
use trust_types::NoMemory;

/// A text, or how many bytes it has.
#[derive(Drop)]
enum Ink {
    Counted(usize),
    Written(Vec<u8>),
}

/// A pen. Contracts see what it holds.
#[derive(Drop)]
pub struct Pen {
    ink: Ink,
}

impl Model for Pen {
    ghost use Rattle.html_pages.specs.Inks.{Ink, seen};

    ghost Value = { Ink };

    ghost view = { λ pen. seen pen.ink };
}

impl Pen {
    /// A pen that only counts. It takes no memory.
    pub fn counting() -> Pen
        ensures { result ≡ Counted 0 }
    {
        Pen {
            ink: Ink::Counted(0),
        }
    }

    /// A pen that writes, with room for so many bytes.
    pub fn writing(alloc: Global, room: usize) -> Result<Pen, NoMemory>
        ensures { IfOk result (λ pen. pen ≡ Written []) }
    {
        Ok(Pen {
            ink: Ink::Written(Vec::with_capacity(alloc, room)?),
        })
    }

    /// Puts down bytes.
    #[tactic(auto, unfolding(crate::specs::Inks::inked))]
    pub fn put(&mut self, bytes: &[u8]) -> Result<(), NoMemory>
        ensures { OnOk result (self.new ≡ inked self.old bytes.now) }
    {
        match &mut self.ink {
            Ink::Counted(count) => {
                let Some(more) = count.checked_add(bytes.len()) else {
                    return Err(NoMemory);
                };
                *count = more;
                Ok(())
            }
            Ink::Written(text) => {
                text.extend_from_slice(bytes)?;
                Ok(())
            }
        }
    }

    /// Puts down a number in decimal digits.
    pub fn put_number(&mut self, number: u64) -> Result<(), NoMemory>
        ensures { OnOk result (self.new ≡ inked self.old (decimal number)) }
    {
        let mut buffer = Buffer::new();
        self.put(buffer.format(number).as_bytes())
    }

    /// Puts down the date of a moment.
    pub fn put_date(&mut self, moment: u64) -> Result<(), NoMemory>
        requires { moment < NO_DATE }
        ensures { OnOk result (self.new ≡ inked self.old (date_of moment)) }
    {
        self.put(&date_text(moment))
    }

    /// How many bytes it put down.
    pub fn amount(&self) -> usize
        ensures { result ≡ amount self.now }
    {
        match &self.ink {
            Ink::Counted(count) => *count,
            Ink::Written(text) => text.len(),
        }
    }

    /// The text that it wrote.
    pub fn into_text(self, alloc: Global) -> Vec<u8>
        ensures { result.items ≡ text_of self }
    {
        match self.ink {
            Ink::Counted(_) => Vec::new(alloc),
            Ink::Written(text) => text,
        }
    }
}
