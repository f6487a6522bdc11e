// The kinds of sample entry. They stay numbers and no enum: a sheet, a record and C give and take them as such (`fields_of`, `sheet`).
#![tactic(auto, unfolding(crate::specs::Kinds::kind_of, crate::specs::Kinds::code_of, crate::specs::Kinds::handler_of, wire::specs::Tests::if_eq))]

ghost use Rattle.std.specs.Prelude.{◌≡◌};
ghost use Rattle.entry_heads.specs.Kinds.{kind_of, code_of, handler_of};

pub const OTHER: usize = 0;

pub const MP4V: usize = 1;

pub const MP4A: usize = 2;

pub const SAMR: usize = 3;

pub const SAWB: usize = 4;

pub const S263: usize = 5;

pub const AVC1: usize = 6;

// The kind of a code, 0 for any other.
pub fn of_code(code: usize) -> usize
    ensures { result ≡ kind_of code }
{
    match code {
        codes::MP4V => MP4V,
        codes::MP4A => MP4A,
        codes::SAMR => SAMR,
        codes::SAWB => SAWB,
        codes::S263 => S263,
        codes::AVC1 => AVC1,
        _ => OTHER,
    }
}

// The code of a kind, 0 where it has none of its own.
pub fn code(kind: usize) -> usize
    ensures { result ≡ code_of kind }
{
    match kind {
        MP4V => codes::MP4V,
        MP4A => codes::MP4A,
        SAMR => codes::SAMR,
        SAWB => codes::SAWB,
        S263 => codes::S263,
        AVC1 => codes::AVC1,
        _ => 0,
    }
}

// The handler that a kind goes with, 0 where it goes with any.
pub fn handler(kind: usize) -> usize
    ensures { result ≡ handler_of kind }
{
    match kind {
        MP4A | SAMR | SAWB => codes::SOUN,
        MP4V | S263 | AVC1 => codes::VIDE,
        _ => 0,
    }
}
