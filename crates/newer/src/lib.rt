// The newer of two files.
#![tactic(auto)]

ghost use Rattle.std.specs.Prelude.{◌≡◌, [], ◌∷◌, ◌^◌, ◌≤◌, ◌<◌, length, take, drop};
ghost use Rattle.boxes.specs.Containers.{LONGEST};
ghost use Rattle.clocks.specs.Zones.{Near, compared as compared_of};
ghost use Rattle.newer.specs.Newer.{modified as modified_of, entry_in, entry_of, in_zones, newest_of, told_by, part_of};

use boxes::seek;
use clocks::{Order, Zone};
use movie::entry;
use rule::{Refusal, refusals};
use wire::{lend, number};

// What the first file is, and where the entry of the later one is: in file 1 or 2, at a place there, so long.
#[derive(Clone, Copy)]
pub struct Part {
    pub order: Order,
    pub file: usize,
    pub place: usize,
    pub span: usize,
}

// Why two files have no newer one: 1 to 10 name the file, 1 or 2; any other number has file 0. The file is a number as C gets it.
#[derive(Clone, Copy, Debug, PartialEq, Eq)]
pub struct FileRefusal {
    pub file: usize,
    pub refusal: Refusal,
}

// No entry of that number.
const NO_SUCH: FileRefusal = FileRefusal {
    file: 0,
    refusal: refusals::NO_SUCH,
};

// Minutes out of range.
const BAD_TIME: FileRefusal = FileRefusal {
    file: 0,
    refusal: refusals::BAD_TIME,
};

// The modification time of a file.
fn modified(file: &[u8]) -> usize
    ensures { (result ≡ modified_of file.now) × (result < 2 ^ 32) }
{
    let moov = seek::payload(file, codes::MOOV, 0);
    number::word32(seek::payload(moov, codes::MVHD, 0), 8)
}

// Entry i of a file, from 1, with the order and which file it is.
fn entry_in(file: &[u8], order: Order, which: usize, i: usize) -> Result<Part, FileRefusal>
    requires { length file.now ≤ LONGEST }
    ensures { result ≡ entry_in order which file.now i }
{
    if i == 0 {
        return Err(NO_SUCH);
    }
    let Some(e) = entry::entry(file, i - 1) else {
        return Err(NO_SUCH);
    };
    Ok(Part {
        order,
        file: which,
        place: e.place,
        span: e.span,
    })
}

// Entry i of the later file, by two zones.
fn compared(first: &[u8], y: Zone, second: &[u8], z: Zone, i: usize) -> Result<Part, FileRefusal>
    requires { (Near y) × (Near z) × (length first.now ≤ LONGEST) × (length second.now ≤ LONGEST) }
    ensures { result ≡ entry_of (compared_of (modified_of first.now) y (modified_of second.now) z) first.now second.now i }
{
    let order = clocks::compare(modified(first), y, modified(second), z);
    match order {
        Order::Earlier => entry_in(second, order, 2, i),
        Order::Same => entry_in(first, order, 1, i),
        Order::Later => entry_in(first, order, 1, i),
    }
}

// The same by minutes.
fn zoned(first: &[u8], y: i64, second: &[u8], z: i64, i: usize) -> Result<Part, FileRefusal>
    requires { (length first.now ≤ LONGEST) × (length second.now ≤ LONGEST) }
    ensures { result ≡ in_zones first.now y second.now z i }
{
    let Some(a) = clocks::zone_of(y) else {
        return Err(BAD_TIME);
    };
    let Some(b) = clocks::zone_of(z) else {
        return Err(BAD_TIME);
    };
    compared(first, a, second, b, i)
}

// What the first of two files is, and where entry i of the later one is.
pub fn newest(first: &[u8], y: i64, second: &[u8], z: i64, i: usize) -> Result<Part, FileRefusal>
    ensures { result ≡ newest_of first.now y second.now z i }
{
    if let Err(refusal) = judge::judge(first) {
        return Err(FileRefusal { file: 1, refusal });
    }
    if let Err(refusal) = judge::judge(second) {
        return Err(FileRefusal { file: 2, refusal });
    }
    zoned(first, y, second, z, i)
}

// So many bytes of a file from a place on, as far as it has them.
fn cut(file: &[u8], place: usize, span: usize) -> &[u8]
    ensures { result.now ≡ take span (drop place file.now) }
{
    lend::front(lend::rest(file, place), span)
}

// Hands three numbers back.
fn tell(answer: &mut [u64; 3], number: usize, file: usize, value: usize)
    ensures { answer.new ≡ number ∷ file ∷ value ∷ [] }
{
    *answer = [number as u64, file as u64, value as u64];
}

// The entry as a part of the later file. Handed back through answer: 0, the entry's file and the order's number; or the
// refusal's number, the file that it names and its place.
pub fn newer<'a>(
    first: &'a [u8],
    y: i64,
    second: &'a [u8],
    z: i64,
    i: usize,
    answer: &mut [u64; 3],
) -> &'a [u8]
    ensures { (result.now ≡ part_of first.now second.now (newest_of first.now y second.now z i)) × (answer.new ≡ told_by (newest_of first.now y second.now z i)) }
{
    match newest(first, y, second, z, i) {
        Ok(f) => {
            let order = f.order;
            tell(answer, 0, f.file, usize::from(order));
            if f.file == 1 {
                return cut(first, f.place, f.span);
            }
            cut(second, f.place, f.span)
        }
        Err(e) => {
            tell(answer, e.refusal.number, e.file, e.refusal.place);
            &first[0..0]
        }
    }
}
