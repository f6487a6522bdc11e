// The shift of times.
#![tactic(auto)]

ghost use Rattle.std.specs.Prelude.{◌≡◌, ◌++◌, ◌≤◌, length, drop};
ghost use Rattle.codes.specs.Codes.{MOOV};
ghost use Rattle.boxes.specs.Seek.{Cut};
ghost use Rattle.boxes.specs.Words.{moved, Small};
ghost use Rattle.clocks.specs.Zones.{Near, leaves};
ghost use Rattle.rule.specs.Results.{Exact};
ghost use Rattle.judge.specs.Acceptance.{Meets};
ghost use Rattle.edit_offsets.specs.Close.{closed};
ghost use Rattle.edit_shift.specs.Shift.{both as both_of, track_times, all_times_by, shift_result};
ghost use Rattle.edit_shift.specs.Amount.{box_times, tracks_times, moov_times, times_of, headers_of, zone_result};

use boxes::walk::{BoxAt, Step, Walk};
use boxes::words::{By, Target, Targets};
use boxes::{seek, walk, words};
use clocks::Zone;
use rule::{Answer, refusals};
use wire::{number, pen};

// Whether both times of a header may be shifted.
#[tactic(auto, unfolding(crate::specs::Shift::both, wire::specs::Clauses::every))]
fn both(head: &[u8], zone: Zone) -> bool
    requires { Near zone }
    ensures { result ≡ both_of (leaves zone) head.now }
{
    clocks::leaves(number::word32(head, 4), zone) && clocks::leaves(number::word32(head, 8), zone)
}

// Those of a track: `mdia` is looked for only where the times of `tkhd` may be shifted.
#[tactic(auto, unfolding(crate::specs::Shift::track_times, wire::specs::Clauses::every))]
fn track_times(track: &[u8], zone: Zone) -> bool
    requires { Near zone }
    ensures { result ≡ track_times (leaves zone) track.now }
{
    both(seek::payload(track, codes::TKHD, 0), zone)
        && both(
            seek::payload(seek::payload(track, codes::MDIA, 0), codes::MDHD, 0),
            zone,
        )
}

// Those of a box of `moov`: only a track has any.
#[tactic(auto, unfolding(crate::specs::Amount::box_times, wire::specs::Tests::if_eq))]
fn box_times(code: usize, body: &[u8], zone: Zone) -> bool
    requires { Near zone }
    ensures { result ≡ box_times (leaves zone) code body.now }
{
    code != codes::TRAK || track_times(body, zone)
}

// Those of all tracks of a `moov`.
fn tracks_times(moov: &[u8], zone: Zone) -> bool
    requires { Near zone }
    ensures { result ≡ tracks_times (leaves zone) moov.now }
{
    let mut w = Walk { at: 0 };
    loop {
        match w.step(moov) {
            Step::Found(b, next) => {
                if !box_times(b.code, walk::body(moov, b), zone) {
                    return false;
                }
                w = next;
            }
            Step::End => {
                return true;
            }
            Step::Broken(_) => {
                return true;
            }
        }
    }
}

// Those of a file, by its `moov`.
#[tactic(auto, unfolding(crate::specs::Amount::moov_times, wire::specs::Clauses::every))]
fn all_times(moov: &[u8], zone: Zone) -> bool
    requires { Near zone }
    ensures { result ≡ moov_times (leaves zone) moov.now }
{
    both(seek::payload(moov, codes::MVHD, 0), zone) && tracks_times(moov, zone)
}

// The two times of a kind of header.
fn times(kind: usize, code: usize) -> Target
    ensures { result ≡ times_of kind code }
{
    Target {
        kind,
        code,
        from: 4,
        span: 8,
    }
}

// Those of all three kinds.
fn headers() -> Targets
    ensures { result ≡ headers_of }
{
    Targets {
        one: times(codes::MOOV, codes::MVHD),
        two: times(codes::TRAK, codes::TKHD),
        three: times(codes::MDIA, codes::MDHD),
    }
}

// Writes the file with its times shifted, its `moov` being b.
fn put_shifted(out: &mut [u8], file: &[u8], b: BoxAt, by: By)
    requires { (Small by) × (length file.now ≤ length out.old) × (Meets file.now) × (Cut file.now MOOV 0 b) }
    ensures { out.new ≡ all_times_by (moved by) (closed file.now) ++ drop (length file.now) out.old }
{
    pen::copy(out, file);
    edit_offsets::close(out, b);
    words::reword_moov(out, b, headers(), by);
}

// The shift of an accepted file whose `moov` is b.
fn shift_by(file: &[u8], b: BoxAt, zone: Zone, out: &mut [u8]) -> Answer
    requires { (Near zone) × (Meets file.now) × (Cut file.now MOOV 0 b) }
    ensures { Exact (zone_result zone file.now) out.old result out.new }
{
    if !all_times(walk::body(file, b), zone) {
        return Err(refusals::BAD_TIME);
    }
    if !judge::editable(file) {
        return Err(refusals::NOT_EDITABLE);
    }
    if out.len() < file.len() {
        return Err(refusals::NO_ROOM);
    }
    put_shifted(
        out,
        file,
        b,
        By {
            limit: 1,
            low: 0,
            high: zone.behind,
            less: zone.ahead,
        },
    );
    Ok(file.len())
}

// The shift of an accepted file, which has a `moov`.
fn shift_accepted(file: &[u8], zone: Zone, out: &mut [u8]) -> Answer
    requires { (Near zone) × (Meets file.now) }
    ensures { Exact (zone_result zone file.now) out.old result out.new }
{
    let Some(b) = seek::nth(file, codes::MOOV, 0) else {
        return Err(refusals::BAD_TIME);
    };
    shift_by(file, b, zone, out)
}

// The shift of a file by minutes.
pub fn shift(file: &[u8], minutes: i64, out: &mut [u8]) -> Answer
    ensures { Exact (shift_result minutes file.now) out.old result out.new }
{
    judge::judge(file)?;
    match clocks::zone_of(minutes) {
        Some(zone) => shift_accepted(file, zone, out),
        None => Err(refusals::BAD_TIME),
    }
}
