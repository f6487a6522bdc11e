// Rule 4 of many boxes: track IDs are different.
#![tactic(auto, unfolding(crate::specs::Four::tracks_in, wire::specs::Tests::if_eq))]

ghost use Rattle.std.specs.Prelude.{◌≡◌, ◌+◌, ◌^◌, ◌<◌, length};
ghost use Rattle.codes.specs.Codes.{TRAK};
ghost use Rattle.boxes.specs.Boxes.{boxes};
ghost use Rattle.boxes.specs.Seek.{count};
ghost use Rattle.rule.specs.Verdict.{unless};
ghost use Rattle.rule_headers.specs.Identities.{identity as identity_of, fresh as fresh_of, fresh_to, tkhd_place};
ghost use Rattle.rule_headers.specs.Four.{tracks_in};

use boxes::seek;
use rule::Verdict;
use wire::number;

// The ID of track i.
fn identity(moov: &[u8], i: usize) -> usize
    ensures { result ≡ identity_of (boxes moov.now) i }
{
    let trak = seek::payload(moov, codes::TRAK, i);
    number::word32(seek::payload(trak, codes::TKHD, 0), 12)
}

// Whether no track before track i has its ID.
fn fresh(moov: &[u8], i: usize) -> bool
    ensures { result ≡ fresh_of (boxes moov.now) i i }
{
    let own = identity(moov, i);
    for j in 0..i {
        if identity(moov, j) == own {
            return false;
        }
    }
    true
}

// The place of the `tkhd` of track i.
fn tkhd_place(moov: &[u8], base: usize, i: usize) -> usize
    requires { base + length moov.now < 2 ^ 62 }
    ensures { result ≡ tkhd_place (boxes moov.now) base i }
{
    let trak = seek::payload(moov, codes::TRAK, i);
    base + seek::start(moov, codes::TRAK, i) + seek::place(trak, codes::TKHD, 0)
}

fn unless_fresh(moov: &[u8], base: usize, i: usize) -> Verdict
    requires { base + length moov.now < 2 ^ 62 }
    ensures { result ≡ unless (fresh_of (boxes moov.now) i i) (tkhd_place (boxes moov.now) base i) }
{
    if !fresh(moov, i) {
        return Err(tkhd_place(moov, base, i));
    }
    Ok(())
}

// The first `tkhd` in file order whose ID an earlier one has.
fn first_again(moov: &[u8], base: usize) -> Verdict
    requires { base + length moov.now < 2 ^ 62 }
    ensures { result ≡ fresh_to (boxes moov.now) base (count TRAK (boxes moov.now)) }
{
    let mut found = Ok(());
    for i in 0..seek::count(moov, codes::TRAK) {
        found = rule::sooner(found, unless_fresh(moov, base, i));
    }
    found
}

// The IDs of a file's tracks, asked of its `moov`.
pub fn tracks_in(k: usize, part: &[u8], base: usize) -> Verdict
    requires { base + length part.now < 2 ^ 62 }
    ensures { result ≡ tracks_in k part.now base }
{
    if k == codes::MOOV {
        return first_again(part, base);
    }
    Ok(())
}
