// The fields of a record as numbers, and back.
#![tactic(auto, unfolding(crate::specs::Numbers::record_of, wire::specs::Tests::if_eq))]

ghost use Rattle.std.specs.Prelude.{Some, ◌≤◌, ◌≡◌, length};
ghost use Rattle.entry_records.specs.declared.field.Record.TheVariants.{Speech, Picture};
ghost use Rattle.entry_records.specs.Records.{fields_of};
ghost use Rattle.rule.specs.Results.{Exact};
ghost use Rattle.rule.specs.Results.ToWrite.{gives};
ghost use Rattle.entry_fields.specs.Numbers.{amr_of, h263_of, record_of};

use entry_heads::kind;
use entry_records::field::{Amr, H263, Rates, Record};
use rule::{Answer, refusals};

// The eight fields of a `samr` or `sawb`.
pub fn put_amr(f: Amr, out: &mut [u64]) -> Answer
    ensures { Exact (gives (fields_of (Some (Speech f)))) out.old result out.new }
{
    if out.len() < 8 {
        return Err(refusals::NO_ROOM);
    }
    out[..8].copy_from_slice(&[
        f.kind as u64,
        f.reference as u64,
        f.scale as u64,
        f.vendor as u64,
        f.version as u64,
        f.modes as u64,
        f.period as u64,
        f.frames as u64,
    ]);
    Ok(8)
}

// The eleven fields of an `s263`.
pub fn put_h263(f: H263, out: &mut [u64]) -> Answer
    ensures { Exact (gives (fields_of (Some (Picture f)))) out.old result out.new }
{
    if out.len() < 11 {
        return Err(refusals::NO_ROOM);
    }
    out[..11].copy_from_slice(&[
        kind::S263 as u64,
        f.reference as u64,
        f.width as u64,
        f.height as u64,
        f.vendor as u64,
        f.version as u64,
        f.level as u64,
        f.profile as u64,
        f.rates.given as u64,
        f.rates.average as u64,
        f.rates.maximum as u64,
    ]);
    Ok(11)
}

// The fields of a `samr` or `sawb` in eight numbers.
fn amr_of(fields: &[u64]) -> Amr
    requires { 8 ≤ length fields.now }
    ensures { result ≡ amr_of fields.now }
{
    Amr {
        kind: fields[0] as usize,
        reference: fields[1] as usize,
        scale: fields[2] as usize,
        vendor: fields[3] as usize,
        version: fields[4] as usize,
        modes: fields[5] as usize,
        period: fields[6] as usize,
        frames: fields[7] as usize,
    }
}

// The fields of an `s263` in eleven numbers.
fn h263_of(fields: &[u64]) -> H263
    requires { 11 ≤ length fields.now }
    ensures { result ≡ h263_of fields.now }
{
    H263 {
        reference: fields[1] as usize,
        width: fields[2] as usize,
        height: fields[3] as usize,
        vendor: fields[4] as usize,
        version: fields[5] as usize,
        level: fields[6] as usize,
        profile: fields[7] as usize,
        rates: Rates {
            given: fields[8] as usize,
            average: fields[9] as usize,
            maximum: fields[10] as usize,
        },
    }
}

// The record of numbers, where they are those of one.
pub fn record_of(fields: &[u64]) -> Option<Record>
    ensures { result ≡ record_of fields.now }
{
    if fields.len() == 8 {
        return Some(Record::Speech(amr_of(fields)));
    }
    if fields.len() == 11 {
        if fields[0] as usize == kind::S263 {
            return Some(Record::Picture(h263_of(fields)));
        }
    }
    None
}
