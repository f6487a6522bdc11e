// The names of the fields of a record, in the order of its numbers.
ghost use Rattle.std.specs.Prelude.{◌<◌, IfSome};

use entry_heads::kind;
use std::fmt;
use std::fmt::{Display, Write};

// The kind of entry that a record is of.
#[derive(Clone, Copy, PartialEq, Eq, Debug)]
pub enum Kind {
    Samr,
    Sawb,
    S263,
}

// How many fields have a name; the rates of pictures follow.
const NAMED: usize = 8;

// The names for a `samr` and a `sawb`, and for an `s263`.
const SPEECH: [&str; NAMED] = [
    "kind",
    "reference",
    "scale",
    "vendor",
    "version",
    "modes",
    "period",
    "frames",
];

const PICTURE: [&str; NAMED] = [
    "kind",
    "reference",
    "width",
    "height",
    "vendor",
    "version",
    "level",
    "profile",
];

// The place of the modes, which only speech has.
const MODES: usize = 5;

impl Kind {
    // No entry of another kind has a record that is told.
    pub fn of(number: u64) -> Kind {
        match number as usize {
            kind::SAMR => Kind::Samr,
            kind::SAWB => Kind::Sawb,
            _ => Kind::S263,
        }
    }

    pub fn names(self) -> [&'static str; NAMED] {
        match self {
            Kind::Samr | Kind::Sawb => SPEECH,
            Kind::S263 => PICTURE,
        }
    }

    // The place of the vendor, the first field of the record itself.
    fn vendor(self) -> usize {
        match self {
            Kind::Samr | Kind::Sawb => 3,
            Kind::S263 => 4,
        }
    }

    // Whether the field at a place is told in hexadecimal.
    pub fn is_hex(self, place: usize) -> bool {
        place == self.vendor() || (self != Kind::S263 && place == MODES)
    }

    // The place of the field of a name.
    fn find(self, name: &[u8]) -> Option<usize>
        ensures { IfSome result (λ place. place < 8) }
    {
        self.names()
            .iter()
            .position(|field| field.as_bytes() == name)
    }

    // The same, of the record itself alone.
    pub fn find_inside(self, name: &[u8]) -> Option<usize>
        ensures { IfSome result (λ place. place < 8) }
    {
        self.find(name).filter(|&place| self.vendor() <= place)
    }

    // Whether an entry of this kind has a field of this name outside its record.
    fn has_outside(self, name: &[u8]) -> bool {
        self.find(name)
            .is_some_and(|place| place != 0 && place < self.vendor())
    }
}

impl Display for Kind {
    fn fmt<W: Write>(&self, f: &mut fmt::Formatter<W>) -> fmt::Result {
        f.write_str(match self {
            Kind::Samr => "samr",
            Kind::Sawb => "sawb",
            Kind::S263 => "s263",
        })
    }
}

// Whether an entry of any kind has such a field.
pub fn is_outside(name: &[u8]) -> bool {
    Kind::Samr.has_outside(name) || Kind::S263.has_outside(name)
}
