// The refusals whose place is always 0, as all of 20 and above but 41, each with its number.
use crate::Refusal;

// "Length is 8 to 1,048,576."
pub const LENGTH: Refusal = Refusal {
    number: 1,
    place: 0,
};

// No such track or entry, or one of another kind.
pub const NO_SUCH: Refusal = Refusal {
    number: 20,
    place: 0,
};

// A record or fields that break the rule.
pub const BAD_RECORD: Refusal = Refusal {
    number: 21,
    place: 0,
};

// Minutes out of range, or a time that would leave its own.
pub const BAD_TIME: Refusal = Refusal {
    number: 22,
    place: 0,
};

// A box that no edit takes.
pub const NOT_EDITABLE: Refusal = Refusal {
    number: 23,
    place: 0,
};

// "The result would pass 1,048,576 bytes."
pub const TOO_LONG: Refusal = Refusal {
    number: 24,
    place: 0,
};

// "The lent output is shorter than the result."
pub const NO_ROOM: Refusal = Refusal {
    number: 25,
    place: 0,
};

// A malformed sheet.
pub const BAD_SHEET: Refusal = Refusal {
    number: 30,
    place: 0,
};

// A dump that starts with no magic.
pub const NO_DUMP: Refusal = Refusal {
    number: 40,
    place: 0,
};

// More than 65,536 frames.
pub const TOO_MANY_FRAMES: Refusal = Refusal {
    number: 42,
    place: 0,
};

// A descriptor that doesn't fit.
pub const NO_FIT: Refusal = Refusal {
    number: 50,
    place: 0,
};

// A missing or surplus part.
pub const BAD_PARTS: Refusal = Refusal {
    number: 51,
    place: 0,
};

// A wrong fixed number.
pub const BAD_NUMBER: Refusal = Refusal {
    number: 52,
    place: 0,
};

// No file whose recording was cut off.
pub const NOT_CUT_OFF: Refusal = Refusal {
    number: 60,
    place: 0,
};

// No good frame to keep.
pub const NO_FRAME: Refusal = Refusal {
    number: 61,
    place: 0,
};
