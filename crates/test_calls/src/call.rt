// What a call says: which it is, the room that it is lent, three numbers, a name, and more bytes.
use wire::{lend, number};

// The functions for C, and the newer of two as a part of a file.
#[derive(Clone, Copy, PartialEq, Eq, Debug)]
pub enum What {
    Judge,
    Tracks,
    Brand,
    Track,
    RecordRead,
    Newer,
    Offsets,
    NewerPart,
    Sheet,
    Table,
    RecordWrite,
    Listing,
    Shift,
    Replace,
    Move,
    FromAmr,
    Salvage,
    Outline,
    Samples,
    Modes,
}

// By its number, as tests/calls.py counts them; a number that it doesn't have asks for an outline.
impl From<usize> for What {
    fn from(number: usize) -> What {
        match number {
            1 => What::Judge,
            2 => What::Tracks,
            3 => What::Brand,
            4 => What::Track,
            5 => What::RecordRead,
            6 => What::Newer,
            7 => What::Offsets,
            8 => What::NewerPart,
            9 => What::Sheet,
            10 => What::Table,
            11 => What::RecordWrite,
            12 => What::Listing,
            13 => What::Shift,
            14 => What::Replace,
            15 => What::Move,
            16 => What::FromAmr,
            17 => What::Salvage,
            19 => What::Samples,
            20 => What::Modes,
            _ => What::Outline,
        }
    }
}

#[derive(Clone, Copy)]
pub struct Call<'a> {
    pub what: What,
    // How long the room is to be.
    pub asked: usize,
    pub first: u64,
    pub second: u64,
    pub third: u64,
    pub name: &'a [u8],
    pub more: &'a [u8],
}

// The 64-bit number at a place.
pub fn wide(part: &[u8], at: usize) -> u64 {
    let high = number::word32(part, at);
    let low = number::word32(lend::rest(part, at), 4);
    (high * 4294967296 + low) as u64
}

impl<'a> Call<'a> {
    pub fn read(call: &'a [u8]) -> Call<'a> {
        let n = number::byte(call, 29);
        let rest = lend::rest(call, 30);
        Call {
            what: What::from(number::byte(call, 0)),
            asked: number::word32(call, 1),
            first: wide(call, 5),
            second: wide(call, 13),
            third: wide(call, 21),
            name: lend::front(rest, n),
            more: lend::rest(rest, n),
        }
    }
}

// The minutes that a number stands for, as tests/calls.py counts them.
const MINUTES: [i64; 21] = [
    0,
    1,
    -1,
    60,
    -60,
    61,
    -61,
    839,
    -839,
    840,
    -840,
    841,
    -841,
    71582788,
    -71582788,
    9223372036854775807,
    -9223372036854775808,
    2,
    -2,
    4294967296,
    -4294967296,
];

pub fn minutes(k: u64) -> i64 {
    MINUTES.get(k as usize).copied().unwrap_or(0)
}
