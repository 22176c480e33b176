//! The words of a case, and the values that they give.

use super::fault::Fault;
use smil_model::{Interval, Time};
use std::alloc::Global;
use std::str::FromStr;

/// Words that are separated by one character, taken one after another from the front.
#[derive(Drop)]
pub struct Words<'a> {
    rest: &'a str,
    between: char,
}

impl<'a> Words<'a> {
    /// The words of a line.
    pub fn of_line(text: &'a str) -> Words<'a> {
        Words {
            rest: text,
            between: ' ',
        }
    }

    /// The parts of a word, separated by commas.
    pub fn of_word(text: &'a str) -> Words<'a> {
        Words {
            rest: text,
            between: ',',
        }
    }

    /// All that is left, as it stands.
    pub fn rest(&self) -> &'a str {
        self.rest
    }

    /// The next word.
    pub fn word(&mut self) -> Result<&'a str, Fault> {
        let rest = self.rest;
        if rest.is_empty() {
            return Err(Fault::Refused);
        }
        match rest.split_once(self.between) {
            Some((word, rest)) => {
                self.rest = rest;
                Ok(word)
            }
            None => {
                self.rest = "";
                Ok(rest)
            }
        }
    }

    /// The values of all words that are left, or no value where just `none` is left.
    pub fn values<T, F>(&self, alloc: Global, none: &str, value: F) -> Result<Vec<T>, Fault>
    where
        T: Drop,
        F: Fn(&str) -> Result<T, Fault>,
        requires { F.IsAlwaysCallable value }
    {
        let mut values = Vec::new(alloc);
        if self.rest != none {
            for word in self.rest.split(self.between) {
                values.push(value(word)?).map_err(|_| Fault::Memory)?;
            }
        }
        Ok(values)
    }

    /// A number.
    pub fn number(&mut self) -> Result<i64, Fault> {
        number(self.word()?)
    }

    /// A number from 0 on, such as a serial.
    pub fn natural(&mut self) -> Result<u32, Fault> {
        natural(self.word()?)
    }

    /// A number, `indefinite` or `unresolved`.
    pub fn time(&mut self) -> Result<Time, Fault> {
        time(self.word()?)
    }

    /// `1` for true and `0` for false.
    pub fn flag(&mut self) -> Result<bool, Fault> {
        match self.word()? {
            "1" => Ok(true),
            "0" => Ok(false),
            _ => Err(Fault::Refused),
        }
    }

    /// A number, or `-` for none.
    pub fn maybe_number(&mut self) -> Result<Option<i64>, Fault> {
        match self.word()? {
            "-" => Ok(None),
            word => Ok(Some(number(word)?)),
        }
    }

    /// A number from 0 on, or `-` for none.
    pub fn maybe_natural(&mut self) -> Result<Option<u32>, Fault> {
        match self.word()? {
            "-" => Ok(None),
            word => Ok(Some(natural(word)?)),
        }
    }

    /// A time, or `-` for none.
    pub fn maybe_time(&mut self) -> Result<Option<Time>, Fault> {
        match self.word()? {
            "-" => Ok(None),
            word => Ok(Some(time(word)?)),
        }
    }

    /// An interval as `BEGIN,END`, or `-` for none.
    pub fn maybe_interval(&mut self) -> Result<Option<Interval>, Fault> {
        match self.word()? {
            "-" => Ok(None),
            word => {
                let mut parts = Words::of_word(word);
                let begin = parts.number()?;
                let end = parts.time()?;
                Ok(Some(Interval { begin, end }))
            }
        }
    }
}

/// A number of the type that is wanted.
pub fn number<T: FromStr>(word: &str) -> Result<T, Fault>
where
    T::Err: Drop,
{
    word.parse::<T>().ok().ok_or(Fault::Refused)
}

/// A number from 0 on.
pub fn natural(word: &str) -> Result<u32, Fault> {
    number(word)
}

/// A number, `indefinite` or `unresolved`.
pub fn time(word: &str) -> Result<Time, Fault> {
    match word {
        "indefinite" => Ok(Time::Indefinite),
        "unresolved" => Ok(Time::Unresolved),
        _ => Ok(Time::At(number(word)?)),
    }
}
