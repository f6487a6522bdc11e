// The record reader and writer over lists of numbers: the fields of a record in order, kind first.
#![tactic(auto)]

ghost use Rattle.rule.specs.Results.{Exact};
ghost use Rattle.entry_fields.specs.Numbers.{read_result, write_result};

use entry_records::field::Record;
use entry_records::record;
use entry_records::record::WriteError;
use release::Release;
use rule::{Answer, refusals};

mod numbers;

// The fields of an entry of a release: 8 of a `samr` or `sawb`, 11 of an `s263`.
pub fn read(entry: &[u8], release: Release, out: &mut [u64]) -> Answer
    ensures { Exact (read_result release entry.now) out.old result out.new }
{
    match record::read(entry, release) {
        Some(Record::Speech(f)) => numbers::put_amr(f, out),
        Some(Record::Picture(f)) => numbers::put_h263(f, out),
        None => Err(refusals::BAD_RECORD),
    }
}

// The entry of fields, of a release.
pub fn write(fields: &[u64], release: Release, out: &mut [u8]) -> Answer
    ensures { Exact (write_result release fields.now) out.old result out.new }
{
    match record::write(numbers::record_of(fields), release, out) {
        Ok(n) => Ok(n),
        Err(WriteError::BadFields) => Err(refusals::BAD_RECORD),
        Err(WriteError::TooShort) => Err(refusals::NO_ROOM),
    }
}
