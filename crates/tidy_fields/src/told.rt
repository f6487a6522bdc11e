// The fields of a record, a line each.
use crate::field::Kind;
use crate::record::Record;
use std::fmt;
use std::fmt::{Display, Write};
use tidy_words::line::Hex;

impl Display for Record {
    fn fmt<W: Write>(&self, f: &mut fmt::Formatter<W>) -> fmt::Result {
        let kind = self.kind();
        writeln!(f, "kind={kind}")?;
        for (place, (name, n)) in kind
            .names()
            .iter()
            .zip(self.numbers.iter())
            .enumerate()
            .skip(1)
        {
            if kind.is_hex(place) {
                let n = Hex(*n);
                writeln!(f, "{name}={n}")?;
            } else {
                writeln!(f, "{name}={n}")?;
            }
        }
        // Only pictures have rates.
        match (kind, self.rates()) {
            (Kind::S263, Some((average, maximum))) => writeln!(f, "rates={average},{maximum}"),
            (Kind::S263, None) => writeln!(f, "rates=none"),
            _ => Ok(()),
        }
    }
}
