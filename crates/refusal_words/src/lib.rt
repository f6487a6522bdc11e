// A refusal in plain words, by total writers.
#![tactic(auto)]

ghost use Rattle.std.specs.Prelude.{◌≡◌, ◌+◌, ◌^◌, ◌≤◌, ◌<◌, length};
ghost use Rattle.wire.specs.Writing.{Put};
ghost use Rattle.refusal_words.specs.RefusalWords.{refusal_words, place_words, refused_text};

use decimal::put_labelled;
use wire::pen::put_part;

// What a number means: a table of numbers and words, and others for a number that is none.
#[tactic(auto, unfolding(crate::specs::RefusalWords::refusal_words, crate::specs::RefusalWords::words_in, wire::specs::Tests::if_eq))]
fn meaning(n: usize) -> &'static str
    ensures words { result.now ≡ refusal_words n }
    ensures short { length result.now ≤ 100 }
{
    match n {
        1 => "the length is not 8 to 1,048,576 bytes",
        2 => "boxes do not tile the file or a container from here on",
        3 => "a box that must be here is missing, or is here too often",
        4 => "a brand list, a header or a track ID is not as it must be",
        5 => "a list of entries is not as its count says, or there are more than 32 sample entries",
        6 => "a sample table is not as long as its count says",
        7 => "the sample tables of a track do not agree",
        8 => "a chunk lies outside every mdat",
        9 => "a data reference is not to this very file",
        10 => "a sample entry breaks its rule",
        20 => "no such entry or track, or one that takes no such record",
        21 => "the record is not one whole box that meets its rule",
        22 => "minutes outside -840 to 840, or a time that would leave 1 to 4,294,967,295",
        23 => "no edit takes this file, for a moof, mfra, sidx, meta, co64 or saio in it",
        24 => "the result would pass 1,048,576 bytes",
        25 => "the room is shorter than the result",
        30 => "the sheet is malformed",
        40 => "this is no dump of AMR or wideband AMR with one channel",
        41 => "the frame here has a padding bit set, is of an unknown type or is cut short",
        42 => "there are more than 65,536 frames",
        60 =>
            "this is not an ftyp and right after it one mdat with size 0 or past the end, and nothing else",
        61 => "no whole good frame stands at the start of the mdat",
        _ => "no such refusal",
    }
}

// The place of a rule's refusal, and of a bad frame.
fn put_place(out: &mut [u8], at: usize, n: usize, p: usize) -> usize
    requires { at < 2 ^ 61 }
    ensures { Put (place_words n p) out.old at result out.new × (result ≤ at + 40) }
{
    if n <= 10 {
        return put_labelled(out, at, b" at ", p);
    }
    if n == 41 {
        return put_labelled(out, at, b" at ", p);
    }
    put_part(out, at, b"")
}

// The line of a refusal with number n at place p.
pub fn put_refusal(out: &mut [u8], at: usize, n: usize, p: usize) -> usize
    requires { at < 2 ^ 60 }
    ensures { Put (refused_text n p) out.old at result out.new }
{
    let a = put_labelled(out, at, b"refused ", n);
    let b = put_place(out, a, n, p);
    let c = put_part(out, b, b": ");
    let d = put_part(out, c, meaning(n).as_bytes());
    put_part(out, d, b"\n")
}
