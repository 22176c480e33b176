//! The plain texts of a node, which no time depends on.

ghost use Rattle.std.specs.Prelude.{◌≡◌};

use super::duplicate::{Duplicate, copy_of};
use super::growing_list::Bytes;
use std::alloc::AllocError;

/// The name of a plain text: those of media, `title`, and those that say what a set sets. SMIL 3.0,
/// "Media object attributes" and "The set element".
#[derive(Clone, Copy)]
pub enum TextName {
    Src,
    Region,
    Alt,
    Title,
    TargetElement,
    AttributeName,
    To,
}

/// The plain texts of a node, each with its bytes or absent.
#[derive(Drop)]
pub struct Texts {
    pub src: Option<Bytes>,
    pub region: Option<Bytes>,
    pub alt: Option<Bytes>,
    pub title: Option<Bytes>,
    pub target_element: Option<Bytes>,
    pub attribute_name: Option<Bytes>,
    pub to: Option<Bytes>,
}

impl Texts {
    ghost use Rattle.smil_model.specs.document.Texts.{no_texts, text_at, with_text};

    /// The texts, each of them absent.
    pub fn none() -> Texts
        ensures { result ≡ no_texts }
    {
        Texts {
            src: None,
            region: None,
            alt: None,
            title: None,
            target_element: None,
            attribute_name: None,
            to: None,
        }
    }

    /// The text of this name, where it is there. It takes no memory.
    pub fn get(&self, name: TextName) -> &Option<Bytes>
        ensures { result.now ≡ text_at self.now name }
    {
        match name {
            TextName::Src => &self.src,
            TextName::Region => &self.region,
            TextName::Alt => &self.alt,
            TextName::Title => &self.title,
            TextName::TargetElement => &self.target_element,
            TextName::AttributeName => &self.attribute_name,
            TextName::To => &self.to,
        }
    }

    /// Sets the text of this name, in place of the one that was there, or takes it away. It has no
    /// condition and takes no memory.
    pub fn put(&mut self, name: TextName, text: Option<Bytes>)
        ensures { self.new ≡ with_text self.old name text }
    {
        match name {
            TextName::Src => self.src = text,
            TextName::Region => self.region = text,
            TextName::Alt => self.alt = text,
            TextName::Title => self.title = text,
            TextName::TargetElement => self.target_element = text,
            TextName::AttributeName => self.attribute_name = text,
            TextName::To => self.to = text,
        }
    }
}

impl Duplicate for Texts {
    fn copy(&self) -> Result<Self, AllocError> {
        Ok(Texts {
            src: copy_of(&self.src)?,
            region: copy_of(&self.region)?,
            alt: copy_of(&self.alt)?,
            title: copy_of(&self.title)?,
            target_element: copy_of(&self.target_element)?,
            attribute_name: copy_of(&self.attribute_name)?,
            to: copy_of(&self.to)?,
        })
    }
}
