// What is inside the `esds` of an entry: the descriptors read, and written back.
#![tactic(auto)]

pub mod text;
pub mod value;

ghost use Rattle.std.specs.Prelude.{◌≡◌, [], ◌∷◌, ◌^◌, ◌≤◌, ◌<◌, length};
ghost use Rattle.boxes.specs.Containers.{LONGEST};
ghost use Rattle.descriptors.specs.Parts.{TOP};
ghost use Rattle.descriptors.specs.Trees.{tree};
ghost use Rattle.entry_heads.specs.Kinds.{kind_of};
ghost use Rattle.wire.specs.Numbers.{word};
ghost use Rattle.rule.specs.Results.{asked, Exact};
ghost use Rattle.rule.specs.Results.ToWrite.{gives};
ghost use Rattle.esds.specs.Values.{kind_rule};
ghost use Rattle.esds.specs.Texts.{esds_text, values_rule};
ghost use Rattle.esds.specs.Calls.{esds_numbers, opened_result, tree_result, opened_as, entry_opened, esds_read, specific_part, values_of, esds_write};

use descriptors::list::Reading;
use descriptors::{list, part};
use entry_heads::{head, kind};
use movie::entry;
use rule::{Answer, Refusal, refusals};
use value::{Esds, Values};
use wire::{lend, number};

// How many bytes of an `esds` stand before its descriptors: its header, and four zero bytes.
const BEFORE: usize = 12;

// The descriptors that start at a place, in an entry of a kind: 50, 51, 52.
fn open_tree(bytes: &[u8], kind: usize, place: usize) -> Result<Esds, Refusal>
    requires { place < 2 ^ 32 }
    ensures { opened_result result ≡ tree_result kind place (tree TOP bytes.now) }
{
    let start = Reading {
        fits: true,
        last: part::TOP,
    };
    let r = list::read(bytes, part::TOP, start);
    if !r.fits {
        return Err(refusals::NO_FIT);
    }
    if r.last != part::SL {
        return Err(refusals::BAD_PARTS);
    }
    let e = value::read(bytes, kind, place);
    let v = e.values;
    if !value::fixed(bytes, v) {
        return Err(refusals::BAD_NUMBER);
    }
    Ok(e)
}

// The `esds` of an entry that stands at a place: 20 for another kind.
fn open_entry(entry: &[u8], place: usize) -> Result<Esds, Refusal>
    requires { place ≤ LONGEST }
    ensures { opened_result result ≡ opened_as (kind_of (word 4 entry.now 4)) place entry.now }
{
    let kind = kind::of_code(number::word32(entry, 4));
    if !value::has_esds(kind) {
        return Err(refusals::NO_SUCH);
    }
    let before = head::size(kind) + BEFORE;
    open_tree(lend::rest(entry, before), kind, place + before)
}

// Of entry i, from 1, of an accepted file: 20 where there is none.
fn open_in(file: &[u8], i: usize) -> Result<Esds, Refusal>
    requires { length file.now ≤ LONGEST }
    ensures { opened_result result ≡ entry_opened file.now i }
{
    if i == 0 {
        return Err(refusals::NO_SUCH);
    }
    match entry::entry(file, i - 1) {
        Some(e) => {
            let from = e.place;
            let to = e.place + e.span;
            open_entry(&file[from..to], from)
        }
        None => Err(refusals::NO_SUCH),
    }
}

// What stands in the `esds` of entry i, from 1, of a file.
pub fn open(file: &[u8], i: usize) -> Result<Esds, Refusal>
    ensures { opened_result result ≡ esds_read file.now i }
{
    judge::judge(file)?;
    open_in(file, i)
}

// The ten numbers of it.
fn put(e: Esds, out: &mut [u64]) -> Answer
    ensures { Exact (gives (esds_numbers e)) out.old result out.new }
{
    if out.len() < 10 {
        return Err(refusals::NO_ROOM);
    }
    let v = e.values;
    out[..10].copy_from_slice(&[
        v.kind as u64,
        v.number as u64,
        v.object as u64,
        v.stream as u64,
        v.buffer as u64,
        v.maximum as u64,
        v.average as u64,
        v.specific as u64,
        e.place as u64,
        e.span as u64,
    ]);
    Ok(10)
}

// The same as numbers: the values, and the place and the length of the specific information.
pub fn read(file: &[u8], i: usize, out: &mut [u64]) -> Answer
    ensures { Exact (esds_read file.now i) out.old result out.new }
{
    let e = open(file, i)?;
    put(e, out)
}

// The specific information as a part of the file, empty where it isn't there and where the call is refused.
pub fn specific(file: &[u8], i: usize) -> &[u8]
    ensures { result.now ≡ specific_part file.now (esds_read file.now i) }
{
    match open(file, i) {
        Ok(e) => lend::front(lend::rest(file, e.place), e.span),
        Err(_) => &file[0..0],
    }
}

// The values of eight numbers.
fn values_of(fields: &[u64]) -> Values
    requires { 8 ≤ length fields.now }
    ensures { result ≡ values_of fields.now }
{
    Values {
        kind: fields[0] as usize,
        number: fields[1] as usize,
        object: fields[2] as usize,
        stream: fields[3] as usize,
        buffer: fields[4] as usize,
        maximum: fields[5] as usize,
        average: fields[6] as usize,
        specific: fields[7] as usize,
    }
}

// The `esds` of values: 50, 52, 25.
fn write_values(v: Values, specific: &[u8], out: &mut [u8]) -> Answer
    ensures { Exact (asked ((50, values_rule v specific.now) ∷ (52, kind_rule v) ∷ []) (gives (esds_text v specific.now))) out.old result out.new }
{
    if !text::values_rule(v, specific) {
        return Err(refusals::NO_FIT);
    }
    if !value::kind_rule(v) {
        return Err(refusals::BAD_NUMBER);
    }
    let z = text::measure(v, specific);
    if out.len() < z.whole {
        return Err(refusals::NO_ROOM);
    }
    Ok(text::put_esds(out, v, specific, z))
}

// The `esds` of eight numbers and the specific information.
pub fn write(fields: &[u64], specific: &[u8], out: &mut [u8]) -> Answer
    ensures { Exact (esds_write fields.now specific.now) out.old result out.new }
{
    if fields.len() != 8 {
        return Err(refusals::NO_SUCH);
    }
    let v = values_of(fields);
    if !value::has_esds(v.kind) {
        return Err(refusals::NO_SUCH);
    }
    write_values(v, specific, out)
}
