// New values for the fields of a record. Where there is none, it is told why.
use crate::field;
use crate::field::Kind;
use crate::record::Record;
use tidy_numbers::parse;
use tidy_words::tell::{Failure, Outcome};
use tidy_words::{argument, tell};

// Says that a field is not to be changed.
fn refuse_field(rt: HostRuntime, name: &[u8]) -> Failure {
    if field::is_outside(name) {
        return tell::wrong(
            rt,
            "not a field of the record, so it is not changed: ",
            name,
        );
    }
    tell::wrong(rt, "no such field in this record: ", name)
}

// The text before the first such byte, and the text after it.
fn split_once(text: &[u8], byte: u8) -> Option<(&[u8], &[u8])> {
    let n = text.iter().position(|&x| x == byte)?;
    Some((&text[..n], &text[n + 1..]))
}

// No rates, or an average and a maximum.
fn rates(rt: HostRuntime, text: &[u8]) -> Result<Option<(u64, u64)>, Failure> {
    if text == b"none".as_slice() {
        return Ok(None);
    }
    let Some((average, maximum)) = split_once(text, b',') else {
        return Err(tell::wrong(
            rt,
            "rates are none, or an average, a comma and a maximum: ",
            text,
        ));
    };
    Ok(Some((parse::told(rt, average)?, parse::told(rt, maximum)?)))
}

impl Record {
    fn set_field(&mut self, rt: HostRuntime, name: &[u8], text: &[u8]) -> Outcome {
        let Some(place) = self.kind().find_inside(name) else {
            return Err(refuse_field(rt, name));
        };
        self.numbers[place] = parse::told(rt, text)?;
        Ok(())
    }

    fn change(&mut self, rt: HostRuntime, name: &[u8], text: &[u8]) -> Outcome {
        if self.kind() == Kind::S263 && name == b"rates".as_slice() {
            self.set_rates(rates(rt, text)?);
            return Ok(());
        }
        self.set_field(rt, name, text)
    }

    // FIELD=VALUE.
    fn change_as(&mut self, rt: HostRuntime, text: &[u8]) -> Outcome {
        match split_once(text, b'=') {
            Some((name, value)) => self.change(rt, name, value),
            None => Err(tell::wrong(rt, "not FIELD=VALUE: ", text)),
        }
    }

    fn change_argument(&mut self, rt: HostRuntime, i: usize) -> Outcome {
        let mut room = argument::room();
        self.change_as(rt, argument::fetch(rt, i, &mut room))
    }

    // The changes of all arguments from 3 to an end.
    pub fn change_all(&mut self, rt: HostRuntime, end: usize) -> Outcome {
        for i in 3..end {
            self.change_argument(rt, i)?;
        }
        Ok(())
    }
}
