// Why a sample fails.
ghost use Rattle.std.specs.Prelude.{◌≡◌};
ghost use Rattle.modes.specs.Sample.{reason_number};

#[derive(Clone, Copy, Debug, PartialEq, Eq)]
pub enum Reason {
    BadFrame,
    WrongCount,
    BitNotSet,
}

// A reason as a number: 1 a bad frame, 2 a wrong count, 3 a bit not set.
impl From<Reason> for usize {
    ghost from_gives = { λ reason r. r ≡ reason_number reason };

    fn from(reason: Reason) -> usize {
        match reason {
            Reason::BadFrame => 1,
            Reason::WrongCount => 2,
            Reason::BitNotSet => 3,
        }
    }
}
