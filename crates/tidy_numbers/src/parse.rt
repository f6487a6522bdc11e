// Numbers in text: decimal, or hexadecimal behind 0x; minutes may have a minus before that.
ghost use Rattle.std.specs.Prelude.{◌≤◌};

use tidy_words::tell::Failure;
use tidy_words::{argument as words, tell};

// What is wrong with a number.
#[derive(Clone, Copy, PartialEq, Eq, Debug)]
pub enum Fault {
    NoNumber,
    TooLarge,
}

impl Fault {
    fn words(self) -> &'static str {
        match self {
            Fault::NoNumber => "not a number: ",
            Fault::TooLarge => "too large a number: ",
        }
    }
}

// What a text can be read as.
pub trait Parse: Sized {
    fn parse(text: &[u8]) -> Result<Self, Fault>;
}

// A number with one digit more.
fn with_digit(value: u64, base: u32, byte: u8) -> Result<u64, Fault>
    requires { (2 ≤ base) × (base ≤ 36) }
{
    let digit = char::from(byte).to_digit(base).ok_or(Fault::NoNumber)?;
    value
        .checked_mul(u64::from(base))
        .and_then(|whole| whole.checked_add(u64::from(digit)))
        .ok_or(Fault::TooLarge)
}

// The number whose digits a text is.
fn digits(text: &[u8], base: u32) -> Result<u64, Fault>
    requires { (2 ≤ base) × (base ≤ 36) }
{
    if text.is_empty() {
        return Err(Fault::NoNumber);
    }
    text.iter()
        .try_fold(0, |value, byte| with_digit(value, base, *byte))
}

impl Parse for u64 {
    fn parse(text: &[u8]) -> Result<u64, Fault> {
        match text.strip_prefix(b"0x") {
            Some(rest) => digits(rest, 16),
            None => digits(text, 10),
        }
    }
}

impl Parse for i64 {
    fn parse(text: &[u8]) -> Result<i64, Fault> {
        let (text, sign) = match text.strip_prefix(b"-") {
            Some(rest) => (rest, -1),
            None => (text, 1),
        };
        let size = i64::try_from(u64::parse(text)?).map_err(|_| Fault::TooLarge)?;
        Ok(sign * size)
    }
}

// What a text is read as; what is wrong with it is told.
pub fn told<T: Parse>(rt: HostRuntime, text: &[u8]) -> Result<T, Failure> {
    T::parse(text).map_err(|fault| tell::wrong(rt, fault.words(), text))
}

// What an argument is read as.
pub fn argument<T: Parse>(rt: HostRuntime, i: usize) -> Result<T, Failure> {
    let mut room = words::room();
    told(rt, words::fetch(rt, i, &mut room))
}
