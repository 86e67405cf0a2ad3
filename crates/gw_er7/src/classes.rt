//! What each byte is among the fields of a message, found once for its delimiters.
ghost use Rattle.std.specs.Prelude.{◌≡◌};

use crate::delimiters::Delimiters;
use std::marker::Model;

/// What a byte is among fields.
#[derive(Clone, Copy)]
pub(crate) enum Class {
    /// It stands for itself.
    Text,
    Field,
    Repetition,
    Component,
    Subcomponent,
    /// It is no separator, and doesn't stand for itself.
    Escape,
}

/// The delimiters of a message, with the class of each byte.
#[derive(Drop)]
pub(crate) struct ByteClasses {
    delimiters: Delimiters,
    classes: [Class; 256],
}

impl Model for ByteClasses {
    ghost use Rattle.gw_er7.specs.declared.delimiters.Delimiters.{Delimiters};
    ghost use Rattle.gw_er7.specs.own.Classes.{delimiters_code, AreClasses};

    ghost Value = { Delimiters };

    ghost coded = { delimiters_code };

    ghost view = { λ c. c.delimiters };

    ghost invariant = { λ c. AreClasses c.delimiters c.classes };
}

impl ByteClasses {
    ghost use Rattle.gw_er7.specs.own.Classes.{class_of};

    /// The classes under these delimiters.
    pub(crate) fn of(delimiters: Delimiters) -> ByteClasses
        ensures { result ≡ delimiters }
    {
        let mut classes = [Class::Text; 256];
        classes[delimiters.escape as usize] = Class::Escape;
        classes[b'&' as usize] = Class::Escape;
        classes[b'\\' as usize] = Class::Escape;
        classes[b'~' as usize] = Class::Escape;
        classes[b'^' as usize] = Class::Escape;
        classes[b'|' as usize] = Class::Escape;
        classes[delimiters.subcomponent as usize] = Class::Subcomponent;
        classes[delimiters.component as usize] = Class::Component;
        classes[delimiters.repetition as usize] = Class::Repetition;
        classes[delimiters.field as usize] = Class::Field;
        ByteClasses {
            delimiters,
            classes,
        }
    }

    pub(crate) fn delimiters(&self) -> Delimiters
        ensures { result ≡ self.now }
    {
        self.delimiters
    }

    #[inline(always)]
    pub(crate) fn class(&self, byte: u8) -> Class
        ensures { result ≡ class_of self.now byte }
    {
        self.classes[byte as usize]
    }
}
