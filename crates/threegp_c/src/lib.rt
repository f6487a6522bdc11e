// The functions that C calls, one for each of threegp, with its clauses: include/threegp.h declares them.
#![tactic(auto)]

ghost use Rattle.std.specs.Prelude.{◌≡◌, length};
ghost use Rattle.frames.specs.Codecs.{codec_named};
ghost use Rattle.release.specs.Releases.{release_named};
ghost use Rattle.judge.specs.Judgement.{judged};
ghost use Rattle.read_samples.specs.Reads.{samples_result};
ghost use Rattle.modes.specs.Track.{modes_result};
ghost use Rattle.read_tracks.specs.Reads.{tracks_answer, track_result, offsets_result};
ghost use Rattle.sheet.specs.Reader.{sheet_result};
ghost use Rattle.sheet_table.specs.Table.{table_result};
ghost use Rattle.brands.specs.Calls.{brand_answer};
ghost use Rattle.listing.specs.Listing.{listing_result};
ghost use Rattle.outline.specs.Outline.{outline_result};
ghost use Rattle.newer.specs.Newer.{newest_of};
ghost use Rattle.entry_fields.specs.Numbers.{read_result, write_result};
ghost use Rattle.edit_shift.specs.Shift.{shift_result};
ghost use Rattle.edit_replace.specs.Replace.{replace_result};
ghost use Rattle.edit_move.specs.Moving.{move_result};
ghost use Rattle.from_amr.specs.Dump.{from_amr};
ghost use Rattle.salvage.specs.Salvage.{report_of, salvage_result};
ghost use Rattle.threegp.specs.Answers.{packed, judge_answer, ForC, ReportsForC, newer_result};

// Judges a file.
#[unsafe(no_mangle)]
pub extern "C" fn threegp_judge(file: &[u8]) -> u64
    ensures { result ≡ judge_answer (judged file.now) }
{
    threegp::threegp_judge(file)
}

// How many tracks a file has.
#[unsafe(no_mangle)]
pub extern "C" fn threegp_tracks(file: &[u8]) -> u64
    ensures { result ≡ packed (tracks_answer file.now) }
{
    threegp::threegp_tracks(file)
}

// Whether a brand holds.
#[unsafe(no_mangle)]
pub extern "C" fn threegp_brand(file: &[u8], code: u32) -> u64
    ensures { result ≡ packed (brand_answer file.now code) }
{
    threegp::threegp_brand(file, code)
}

// The sheet of a file.
#[unsafe(no_mangle)]
pub extern "C" fn threegp_sheet(file: &[u8], out: &mut [u8]) -> u64
    ensures { ForC (sheet_result file.now) out.old result out.new }
{
    threegp::threegp_sheet(file, out)
}

// The table of a track of a sheet.
#[unsafe(no_mangle)]
pub extern "C" fn threegp_table(sheet: &[u8], track: u64, out: &mut [u8]) -> u64
    ensures { ForC (table_result sheet.now track) out.old result out.new }
{
    threegp::threegp_table(sheet, track, out)
}

// The chunk offsets of a track.
#[unsafe(no_mangle)]
pub extern "C" fn threegp_offsets(file: &[u8], track: u64, list: &mut [u32]) -> u64
    ensures { ForC (offsets_result file.now track) list.old result list.new }
{
    threegp::threegp_offsets(file, track, list)
}

// What a track says: handler, media ticks, time scale, movie ticks.
#[unsafe(no_mangle)]
pub extern "C" fn threegp_track(file: &[u8], track: u64, out: &mut [u64]) -> u64
    ensures { ForC (track_result file.now track) out.old result out.new }
{
    threegp::threegp_track(file, track, out)
}

// Where each sample of a track lies: its place and its length, in turn.
#[unsafe(no_mangle)]
pub extern "C" fn threegp_samples(file: &[u8], track: u64, out: &mut [u64]) -> u64
    ensures { ForC (samples_result file.now track) out.old result out.new }
{
    threegp::threegp_samples(file, track, out)
}

// The first sample of a track of speech that fails, and why.
#[unsafe(no_mangle)]
pub extern "C" fn threegp_modes(file: &[u8], track: u64, out: &mut [u64]) -> u64
    ensures { ForC (modes_result file.now track) out.old result out.new }
{
    threegp::threegp_modes(file, track, out)
}

// The times of a file shifted.
#[unsafe(no_mangle)]
pub extern "C" fn threegp_shift(file: &[u8], minutes: i64, out: &mut [u8]) -> u64
    ensures { ForC (shift_result minutes file.now) out.old result out.new }
{
    threegp::threegp_shift(file, minutes, out)
}

// A decoder record replaced.
#[unsafe(no_mangle)]
pub extern "C" fn threegp_replace(file: &[u8], entry: u64, given: &[u8], out: &mut [u8]) -> u64
    ensures { ForC (replace_result file.now entry given.now) out.old result out.new }
{
    threegp::threegp_replace(file, entry, given, out)
}

// `moov` moved right after `ftyp`.
#[unsafe(no_mangle)]
pub extern "C" fn threegp_move(file: &[u8], out: &mut [u8]) -> u64
    ensures { ForC (move_result file.now) out.old result out.new }
{
    threegp::threegp_move(file, out)
}

// The file that a dump becomes.
#[unsafe(no_mangle)]
pub extern "C" fn threegp_from_amr(dump: &[u8], out: &mut [u8]) -> u64
    ensures { ForC (from_amr dump.now) out.old result out.new }
{
    threegp::threegp_from_amr(dump, out)
}

// What is saved of a recording whose recorder died.
#[unsafe(no_mangle)]
pub extern "C" fn threegp_salvage(
    file: &[u8],
    wideband: u64,
    out: &mut [u8],
    report: &mut [u64],
) -> u64
    ensures { ReportsForC (salvage_result (codec_named wideband) file.now (length report.old))
        (report_of (codec_named wideband) file.now) out.old result out.new report.old report.new }
{
    threegp::threegp_salvage(file, wideband, out, report)
}

// The fields of a record of a release as numbers.
#[unsafe(no_mangle)]
pub extern "C" fn threegp_record_read(entry: &[u8], release: u64, out: &mut [u64]) -> u64
    ensures { ForC (read_result (release_named release) entry.now) out.old result out.new }
{
    threegp::threegp_record_read(entry, release, out)
}

// The record of numbers, of a release.
#[unsafe(no_mangle)]
pub extern "C" fn threegp_record_write(numbers: &[u64], release: u64, out: &mut [u8]) -> u64
    ensures { ForC (write_result (release_named release) numbers.now) out.old result out.new }
{
    threegp::threegp_record_write(numbers, release, out)
}

// The printed listing of a file.
#[unsafe(no_mangle)]
pub extern "C" fn threegp_listing(file: &[u8], out: &mut [u8]) -> u64
    ensures { ForC (listing_result file.now) out.old result out.new }
{
    threegp::threegp_listing(file, out)
}

// Every box of a file, as text.
#[unsafe(no_mangle)]
pub extern "C" fn threegp_outline(file: &[u8], out: &mut [u8]) -> u64
    ensures { ForC (outline_result file.now) out.old result out.new }
{
    threegp::threegp_outline(file, out)
}

// The newer of two files.
#[unsafe(no_mangle)]
pub extern "C" fn threegp_newer(
    first: &[u8],
    y: i64,
    second: &[u8],
    z: i64,
    entry: u64,
    out: &mut [u64],
) -> u64
    ensures { ForC (newer_result (newest_of first.now y second.now z entry)) out.old result out.new }
{
    threegp::threegp_newer(first, y, second, z, entry, out)
}
