// The record reader and writer.
#![tactic(auto, using(wire::proofs::Writing::pen_front), unfolding(crate::specs::Records::read_of, crate::specs::Records::written_of, crate::specs::Records::out_of, wire::specs::Tests::if_lt))]

ghost use Rattle.std.specs.Prelude.{◌≡◌};
ghost use Rattle.entry_records.specs.Records.{read_of, written_of, out_of};

use crate::field::Record;
use crate::{field, text};
use entry_heads::kind;
use entry_rules::entry;
use release::Release;
use wire::number;

// Why a record isn't written: its fields break their rule, or the buffer is too short.
#[derive(Clone, Copy, Debug, PartialEq, Eq)]
pub enum WriteError {
    BadFields,
    TooShort,
}

// Reads an entry of a release: none where it breaks its rule, or is of another kind.
pub fn read(entry: &[u8], release: Release) -> Option<Record>
    ensures { result ≡ read_of release entry.now }
{
    if !entry::entry_rule(entry, None, release) {
        return None;
    }
    field::inside(kind::of_code(number::word32(entry, 4)), entry)
}

// Writes an entry of a release. What is no record has bad fields.
pub fn write(fields: Option<Record>, release: Release, out: &mut [u8]) -> Result<usize, WriteError>
    ensures { (result ≡ written_of release fields out.old) × (out.new ≡ out_of release fields out.old) }
{
    if !field::rule(release, fields) {
        return Err(WriteError::BadFields);
    }
    if out.len() < text::text_length(fields) {
        return Err(WriteError::TooShort);
    }
    Ok(text::put_record(out, fields))
}
