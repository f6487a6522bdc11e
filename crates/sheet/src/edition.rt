// The editions of the sheet.
ghost use Rattle.std.specs.Prelude.{◌≡◌, ◌≤◌};
ghost use Rattle.sheet.specs.Sheet.{Second, edition_for, bodies_at};

// What byte 0 is, and how many slots there are.
#[derive(Clone, Copy)]
pub struct Edition {
    pub number: usize,
    pub slots: usize,
}

// Where the slots start, and how long each is.
pub const FRONT: usize = 4;

pub const SLOT: usize = 12;

// The most slots, and where the bodies start after them.
pub const SLOTS: usize = 32;

pub const BODIES: usize = FRONT + SLOT * SLOTS;

// The edition of a sheet of n entries.
pub fn of_count(n: usize) -> Edition
    ensures { result ≡ edition_for n }
{
    if n <= 8 {
        return Edition {
            number: 1,
            slots: 8,
        };
    }
    Edition {
        number: 2,
        slots: SLOTS,
    }
}

// Where the bodies of a sheet of n entries start.
pub fn bodies_at(n: usize) -> usize
    ensures { (result ≡ bodies_at (edition_for n)) × (result ≤ bodies_at Second) }
{
    let e = of_count(n);
    FRONT + SLOT * e.slots
}
