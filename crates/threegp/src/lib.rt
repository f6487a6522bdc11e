// The library's face for C, as a library: every call, in the same definitions as the call behind it. threegp_c exports them.
#![tactic(auto)]

ghost use Rattle.std.specs.Prelude.{◌≡◌, length};
ghost use Rattle.frames.specs.Codecs.{codec_named};
ghost use Rattle.rule.specs.Results.{Exact};
ghost use Rattle.release.specs.Releases.{release_named};
ghost use Rattle.judge.specs.Judgement.{judged};
ghost use Rattle.read_samples.specs.Reads.{samples_result};
ghost use Rattle.modes.specs.Track.{modes_result};
ghost use Rattle.read_tracks.specs.Reads.{tracks_answer, track_result, offsets_result};
ghost use Rattle.sheet.specs.Reader.{sheet_result};
ghost use Rattle.sheet_table.specs.Table.{table_result};
ghost use Rattle.brands.specs.Calls.{brand_answer};
ghost use Rattle.listing.specs.Listing.{listing_result};
ghost use Rattle.outline.specs.Outline.{outline_result};
ghost use Rattle.newer.specs.Newer.{Found, newest_of};
ghost use Rattle.entry_fields.specs.Numbers.{read_result, write_result};
ghost use Rattle.edit_shift.specs.Shift.{shift_result};
ghost use Rattle.edit_replace.specs.Replace.{replace_result};
ghost use Rattle.edit_move.specs.Moving.{move_result};
ghost use Rattle.from_amr.specs.Dump.{from_amr};
ghost use Rattle.salvage.specs.Salvage.{report_of, salvage_result};
ghost use Rattle.threegp.specs.Answers.{pair as pair_of, packed, judge_answer, ForC, ReportsForC, newer_result, Told};

use frames::codec::Codec;
use newer::{FileRefusal, Part};
use release::Release;
use rule::{Answer, Refusal, refusals};

fn pair(n: usize, v: usize) -> u64
    ensures { result ≡ pair_of n v }
{
    (n % 4294967296) as u64 * 4294967296 + (v % 4294967296) as u64
}

// An answer as one number.
fn pack(answer: Answer) -> u64
    ensures { result ≡ packed answer }
{
    match answer {
        Ok(n) => pair(0, n),
        Err(e) => pair(e.number, e.place),
    }
}

// Judges a file.
pub fn threegp_judge(file: &[u8]) -> u64
    ensures { result ≡ judge_answer (judged file.now) }
{
    match judge::judge(file) {
        Ok(()) => pair(0, 0),
        Err(refusal) => pair(refusal.number, refusal.place),
    }
}

// How many tracks a file has.
pub fn threegp_tracks(file: &[u8]) -> u64
    ensures { result ≡ packed (tracks_answer file.now) }
{
    pack(read_tracks::tracks(file))
}

// Whether a brand holds.
pub fn threegp_brand(file: &[u8], code: u32) -> u64
    ensures { result ≡ packed (brand_answer file.now code) }
{
    pack(brands::brand(file, code as usize))
}

// The sheet of a file.
pub fn threegp_sheet(file: &[u8], out: &mut [u8]) -> u64
    ensures { ForC (sheet_result file.now) out.old result out.new }
{
    pack(sheet::sheet(file, out))
}

// The table of a track of a sheet.
pub fn threegp_table(sheet: &[u8], track: u64, out: &mut [u8]) -> u64
    ensures { ForC (table_result sheet.now track) out.old result out.new }
{
    pack(sheet_table::table(sheet, track as usize, out))
}

// The chunk offsets of a track.
pub fn threegp_offsets(file: &[u8], track: u64, list: &mut [u32]) -> u64
    ensures { ForC (offsets_result file.now track) list.old result list.new }
{
    pack(read_tracks::offsets(file, track as usize, list))
}

// What a track says: handler, media ticks, time scale, movie ticks.
pub fn threegp_track(file: &[u8], track: u64, out: &mut [u64]) -> u64
    ensures { ForC (track_result file.now track) out.old result out.new }
{
    pack(read_tracks::track(file, track as usize, out))
}

// Where each sample of a track lies: its place and its length, in turn.
pub fn threegp_samples(file: &[u8], track: u64, out: &mut [u64]) -> u64
    ensures { ForC (samples_result file.now track) out.old result out.new }
{
    pack(read_samples::samples(file, track as usize, out))
}

// The first sample of a track of speech that fails, and why.
pub fn threegp_modes(file: &[u8], track: u64, out: &mut [u64]) -> u64
    ensures { ForC (modes_result file.now track) out.old result out.new }
{
    pack(modes::modes(file, track as usize, out))
}

// The times of a file shifted.
pub fn threegp_shift(file: &[u8], minutes: i64, out: &mut [u8]) -> u64
    ensures { ForC (shift_result minutes file.now) out.old result out.new }
{
    pack(edit_shift::shift(file, minutes, out))
}

// A decoder record replaced.
pub fn threegp_replace(file: &[u8], entry: u64, given: &[u8], out: &mut [u8]) -> u64
    ensures { ForC (replace_result file.now entry given.now) out.old result out.new }
{
    pack(edit_replace::replace(file, entry as usize, given, out))
}

// `moov` moved right after `ftyp`.
pub fn threegp_move(file: &[u8], out: &mut [u8]) -> u64
    ensures { ForC (move_result file.now) out.old result out.new }
{
    pack(edit_move::move_moov(file, out))
}

// The file that a dump becomes.
pub fn threegp_from_amr(dump: &[u8], out: &mut [u8]) -> u64
    ensures { ForC (from_amr dump.now) out.old result out.new }
{
    pack(from_amr::from_amr(dump, out))
}

// What is saved of a recording whose recorder died.
pub fn threegp_salvage(file: &[u8], wideband: u64, out: &mut [u8], report: &mut [u64]) -> u64
    ensures { ReportsForC (salvage_result (codec_named wideband) file.now (length report.old))
        (report_of (codec_named wideband) file.now) out.old result out.new report.old report.new }
{
    pack(salvage::salvage(file, Codec::from(wideband), out, report))
}

// The fields of a record of a release as numbers.
pub fn threegp_record_read(entry: &[u8], release: u64, out: &mut [u64]) -> u64
    ensures { ForC (read_result (release_named release) entry.now) out.old result out.new }
{
    pack(entry_fields::read(entry, Release::from(release), out))
}

// The record of numbers, of a release.
pub fn threegp_record_write(numbers: &[u64], release: u64, out: &mut [u8]) -> u64
    ensures { ForC (write_result (release_named release) numbers.now) out.old result out.new }
{
    pack(entry_fields::write(numbers, Release::from(release), out))
}

// The printed listing of a file.
pub fn threegp_listing(file: &[u8], out: &mut [u8]) -> u64
    ensures { ForC (listing_result file.now) out.old result out.new }
{
    pack(listing::listing(file, out))
}

// Every box of a file, as text.
pub fn threegp_outline(file: &[u8], out: &mut [u8]) -> u64
    ensures { ForC (outline_result file.now) out.old result out.new }
{
    pack(outline::outline(file, out))
}

// The four numbers of an entry of the later file.
fn put_part(out: &mut [u64], f: Part) -> Answer
    ensures { Exact (newer_result (Found f)) out.old result out.new }
{
    if out.len() < 4 {
        return Err(refusals::NO_ROOM);
    }
    let order = f.order;
    out[0] = usize::from(order) as u64;
    out[1] = f.file as u64;
    out[2] = f.place as u64;
    out[3] = f.span as u64;
    Ok(4)
}

fn put_outcome(out: &mut [u64], outcome: Result<Part, FileRefusal>) -> Answer
    requires { Told outcome }
    ensures { Exact (newer_result outcome) out.old result out.new }
{
    match outcome {
        Ok(f) => put_part(out, f),
        Err(e) => Err(Refusal {
            number: 256 * e.file + e.refusal.number,
            place: e.refusal.place,
        }),
    }
}

// The newer of two files.
pub fn threegp_newer(
    first: &[u8],
    y: i64,
    second: &[u8],
    z: i64,
    entry: u64,
    out: &mut [u64],
) -> u64
    ensures { ForC (newer_result (newest_of first.now y second.now z entry)) out.old result out.new }
{
    pack(put_outcome(out, newer::newest(first, y, second, z, entry as usize)))
}
