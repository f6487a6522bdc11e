// A record as the library has it: a list of numbers.
use crate::field::Kind;

// The places of the rates: whether there are any, the average and the maximum.
pub const GIVEN: usize = 8;

pub const AVERAGE: usize = 9;

pub const MAXIMUM: usize = 10;

// The first number is that of its kind.
#[derive(Clone, Copy)]
pub struct Record {
    pub numbers: [u64; 11],
}

impl Record {
    pub fn new() -> Record {
        Record { numbers: [0; 11] }
    }

    pub fn kind(&self) -> Kind {
        Kind::of(self.numbers[0])
    }

    // The first n numbers, or all where there are fewer.
    pub fn first(&self, n: usize) -> &[u64] {
        self.numbers.get(..n).unwrap_or(&self.numbers)
    }

    // The average and the maximum rate.
    pub fn rates(&self) -> Option<(u64, u64)> {
        if self.numbers[GIVEN] == 0 {
            return None;
        }
        Some((self.numbers[AVERAGE], self.numbers[MAXIMUM]))
    }

    pub fn set_rates(&mut self, rates: Option<(u64, u64)>) {
        let (given, (average, maximum)) = match rates {
            Some(rates) => (1, rates),
            None => (0, (0, 0)),
        };
        self.numbers[GIVEN] = given;
        self.numbers[AVERAGE] = average;
        self.numbers[MAXIMUM] = maximum;
    }
}
