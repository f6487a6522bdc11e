// The rooms that a call is lent, and the line that is written of it and of them.
use crate::call::{Call, What};
use crate::{call, print};
use std::io::Result;
use wire::{lend, number};

// The longest room whose numbers are all written; but for samples none is longer.
const SHOWN: usize = 16;

// The longest room for samples, and for bytes.
const MANY: usize = 131080;

const LONGEST: usize = 1050000;

// What stands in a room before.
const FRESH: u64 = 0xAAAAAAAAAAAAAAAA;

// Those that write numbers, into a room of at most so many: where there are more than are shown, their sum.
fn numbers<F: FnOnce(&mut [u64]) -> u64>(
    rt: HostRuntime,
    asked: usize,
    most: usize,
    ask: F,
) -> Result<()>
    requires { F.IsAlwaysCallable ask }
{
    let mut room = vec![in rt.alloc(); FRESH; asked.min(most)]?;
    print::answer(rt, ask(room.as_mut_slice()));
    if room.len() <= SHOWN {
        print::all(rt, room.as_slice());
    } else {
        print::sum_halves(rt, room.as_slice());
    }
    Ok(())
}

// Chunk offsets: a call is lent the front of a room for 200.
fn offsets(rt: HostRuntime, file: &[u8], call: Call<'_>) {
    let mut room = [0xAAAAAAAAu32; 200];
    let (front, _) = room.split_at_mut(call.asked.min(200));
    print::answer(rt, threegp::threegp_offsets(file, call.first, front));
    print::sum(rt, &room);
}

// Of two files that stand one after the other: the call says how long the first is.
fn two<'a>(files: &'a [u8], call: Call<'_>) -> (&'a [u8], &'a [u8]) {
    let n = number::word32(call.more, 0);
    (lend::front(files, n), lend::rest(files, n))
}

fn newer(files: &[u8], call: Call<'_>, out: &mut [u64]) -> u64 {
    let (first, second) = two(files, call);
    let y = call::minutes(call.first);
    let z = call::minutes(call.second);
    threegp::threegp_newer(first, y, second, z, call.third, out)
}

// What it hands back beside the part, as one number in the form of the functions for C.
fn told(numbers: [u64; 3]) -> u64 {
    let [number, file, value] = numbers;
    if number == 0 {
        return value % 4294967296;
    }
    (256 * (file % 256) + number % 256) * 4294967296 + value % 4294967296
}

// The newer of two by the call that hands back a part of a file.
fn part(rt: HostRuntime, files: &[u8], call: Call<'_>) {
    let (first, second) = two(files, call);
    let y = call::minutes(call.first);
    let z = call::minutes(call.second);
    let mut numbers = [FRESH; 3];
    let part = newer::newer(first, y, second, z, call.third as usize, &mut numbers);
    print::answer(rt, told(numbers));
    print::sum(rt, part);
}

// Those that write bytes: their sum, and of some the text too.
fn bytes<F: FnOnce(&mut [u8]) -> u64>(
    rt: HostRuntime,
    asked: usize,
    shown: bool,
    ask: F,
) -> Result<()>
    requires { F.IsAlwaysCallable ask }
{
    let mut room = vec![in rt.alloc(); 0xAAu8; asked.min(LONGEST)]?;
    let answer = ask(room.as_mut_slice());
    print::answer(rt, answer);
    print::sum(rt, room.as_slice());
    if shown {
        print::text(rt, answer, room.as_slice());
    }
    Ok(())
}

// The numbers of a part, 20 at most.
fn record_write(part: &[u8], release: u64, out: &mut [u8]) -> u64 {
    let mut list = [0u64; 20];
    for (k, n) in list.iter_mut().enumerate() {
        *n = call::wide(part, k * 8);
    }
    let (front, _) = list.split_at((part.len() / 8).min(20));
    threegp::threegp_record_write(front, release, out)
}

// The one with two rooms: its second number says how long that of the report is, 16 at most.
fn salvage(rt: HostRuntime, file: &[u8], call: Call<'_>) -> Result<()> {
    let mut room = vec![in rt.alloc(); 0xAAu8; call.asked.min(LONGEST)]?;
    let mut report = vec![in rt.alloc(); FRESH; call.second.min(16) as usize]?;
    let answer = threegp::threegp_salvage(
        file,
        call.first,
        room.as_mut_slice(),
        report.as_mut_slice(),
    );
    print::answer(rt, answer);
    print::sum(rt, room.as_slice());
    print::all(rt, report.as_slice());
    Ok(())
}

// Those that answer a number alone.
fn answered(rt: HostRuntime, answer: u64) -> Result<()> {
    print::answer(rt, answer);
    Ok(())
}

fn make_what(rt: HostRuntime, file: &[u8], call: Call<'_>) -> Result<()> {
    let Call {
        what,
        asked,
        first,
        more,
        ..
    } = call;
    let minutes = call::minutes(first);
    match what {
        What::Judge => answered(rt, threegp::threegp_judge(file)),
        What::Tracks => answered(rt, threegp::threegp_tracks(file)),
        What::Brand => {
            let code = (first & 0xFFFFFFFF) as u32;
            answered(rt, threegp::threegp_brand(file, code))
        }
        What::Track => numbers(rt, asked, SHOWN, |out| {
            threegp::threegp_track(file, first, out)
        }),
        What::RecordRead => numbers(rt, asked, SHOWN, |out| {
            threegp::threegp_record_read(file, first, out)
        }),
        What::Newer => numbers(rt, asked, SHOWN, |out| newer(file, call, out)),
        What::Samples => numbers(rt, asked, MANY, |out| {
            threegp::threegp_samples(file, first, out)
        }),
        What::Modes => numbers(rt, asked, SHOWN, |out| {
            threegp::threegp_modes(file, first, out)
        }),
        What::Offsets => {
            offsets(rt, file, call);
            Ok(())
        }
        What::NewerPart => {
            part(rt, file, call);
            Ok(())
        }
        What::Sheet => bytes(rt, asked, false, |out| threegp::threegp_sheet(file, out)),
        What::Table => bytes(rt, asked, false, |out| {
            threegp::threegp_table(file, first, out)
        }),
        What::RecordWrite => bytes(rt, asked, false, |out| record_write(file, first, out)),
        What::Listing => bytes(rt, asked, true, |out| threegp::threegp_listing(file, out)),
        What::Shift => bytes(rt, asked, false, |out| {
            threegp::threegp_shift(file, minutes, out)
        }),
        What::Replace => bytes(rt, asked, false, |out| {
            threegp::threegp_replace(file, first, more, out)
        }),
        What::Move => bytes(rt, asked, false, |out| threegp::threegp_move(file, out)),
        What::FromAmr => bytes(rt, asked, false, |out| threegp::threegp_from_amr(file, out)),
        // The text is written where the first number is 1.
        What::Outline => bytes(rt, asked, first == 1, |out| {
            threegp::threegp_outline(file, out)
        }),
        What::Salvage => salvage(rt, file, call),
    }
}

// One line: the name, the answer, and what the rooms hold.
pub fn make(rt: HostRuntime, file: &[u8], call: Call<'_>) -> Result<()> {
    print::put(rt, call.name);
    make_what(rt, file, call)?;
    print::put(rt, b"\n");
    Ok(())
}
