// Rules 6 and 7 on the four tables of a track, its media ticks, and its chunks.
ghost use Rattle.std.specs.Prelude.{◌+◌, ◌≤◌};
ghost use Rattle.sample_tables.specs.Tables.{Table};
ghost use Rattle.sample_times.specs.Walks.{Playable};

use crate::{named, print};
use sample_tables::chunk::Chunk;
use sample_tables::time::MediaTicks;
use sample_tables::{agree, chunk, size, table, time};
use sample_times::walk::{TimedStep, TimedWalk};
use wire::number;

#[derive(Clone, Copy)]
struct Tables<'a> {
    stts: &'a [u8],
    stsc: &'a [u8],
    stsz: &'a [u8],
    stco: &'a [u8],
}

fn forms(rt: HostRuntime, tables: Tables<'_>) {
    print::say(
        rt,
        b": forms ",
        usize::from(table::table_form(tables.stts, 8)),
    );
    print::say(rt, b" ", usize::from(table::table_form(tables.stsc, 12)));
    print::say(rt, b" ", usize::from(size::sizes_form(tables.stsz)));
    print::say(rt, b" ", usize::from(table::table_form(tables.stco, 4)));
}

// Ticks are read of at most 65,536 samples.
fn ticks(rt: HostRuntime, stts: &[u8]) {
    if !table::table_form(stts, 8) {
        return;
    }
    let n = time::timed(stts);
    let _ = print!(rt; " timed {n}");
    if 65536 < n {
        return;
    }
    let sum = time::media_ticks(stts);
    let _ = print!(rt; " ticks {}", sum.0);
}

// A chunk's number from 0, offset, first sample from 0, samples and description, its first tick by the walk and by itself, and how many bytes it has.
fn say_chunk(rt: HostRuntime, stts: &[u8], stsz: &[u8], found: Chunk, tick: MediaTicks)
    requires { Table 8 stts.now × (found.first + found.samples ≤ 65536) }
{
    let Chunk {
        nth,
        first,
        samples,
        description,
        ..
    } = found;
    let lies = chunk::extent_of(stsz, found);
    let alone = time::tick_at(stts, first);
    let _ = print!(rt;
        "\nchunk {nth} {} {first} {samples} {description}",
        lies.offset
    );
    let _ = print!(rt; " tick {} {} bytes {}", tick.0, alone.0, lies.bytes);
}

fn chunks(rt: HostRuntime, tables: Tables<'_>)
    requires { Playable tables.stts.now tables.stsc.now tables.stco.now }
{
    let mut walk = TimedWalk::start();
    loop {
        match walk.step(tables.stts, tables.stsc, tables.stco) {
            TimedStep::Found(found, tick, next) => {
                say_chunk(rt, tables.stts, tables.stsz, found, tick);
                walk = next;
            }
            TimedStep::Ticking(next) => {
                walk = next;
            }
            TimedStep::End => {
                return;
            }
        }
    }
}

fn agree(rt: HostRuntime, tables: Tables<'_>, descriptions: usize) {
    if !table::table_form(tables.stts, 8) {
        return;
    }
    if !table::table_form(tables.stsc, 12) {
        return;
    }
    if !size::sizes_form(tables.stsz) {
        return;
    }
    if !table::table_form(tables.stco, 4) {
        return;
    }
    if !agree::seven(
        tables.stts,
        tables.stsc,
        tables.stsz,
        tables.stco,
        descriptions,
    ) {
        print::text(rt, b" agree 0");
        return;
    }
    print::text(rt, b" agree 1");
    chunks(rt, tables);
}

// The count of sample descriptions, then `stts`, `stsc`, `stsz` and `stco`, each behind its length.
pub fn show(rt: HostRuntime, case: &[u8]) {
    let case = named::read(case);
    let (count, rest) = named::piece(case.body);
    let (stts, rest) = named::piece(rest);
    let (stsc, rest) = named::piece(rest);
    let (stsz, rest) = named::piece(rest);
    let (stco, _) = named::piece(rest);
    let tables = Tables {
        stts,
        stsc,
        stsz,
        stco,
    };
    print::text(rt, case.name);
    forms(rt, tables);
    ticks(rt, stts);
    agree(rt, tables, number::word32(count, 0));
    print::line(rt);
}
