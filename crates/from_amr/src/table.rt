// The boxes of `stbl`: one entry, and the tables of the samples.
ghost use Rattle.std.specs.Prelude.{◌≡◌, [], ◌∷◌, ◌+◌, ◌*◌, ◌^◌, ◌≤◌, ◌<◌, length};
ghost use Rattle.codes.specs.Codes.{STSD, STTS, STSC, STSZ, STCO, STBL};
ghost use Rattle.wire.specs.Tests.{if_eq};
ghost use Rattle.wire.specs.Numbers.{bytes};
ghost use Rattle.wire.specs.Writing.{Put};
ghost use Rattle.boxes.specs.Box.{plain_box, write};
ghost use Rattle.entry_records.specs.Texts.{amr_text};
ghost use Rattle.frames.specs.Frames.{frames};
ghost use Rattle.from_amr.specs.Fields.{fields, span};
ghost use Rattle.from_amr.specs.Boxes.{kind_by, scale_by, sample_ticks, entry_by, sizes_of};
ghost use Rattle.from_amr.specs.Boxes.{stsd as stsd_of, stts as stts_of, stsc as stsc_of, stsz as stsz_of, stco as stco_of};
ghost use Rattle.from_amr.specs.Chunks.{ChunkOf};
ghost use Rattle.from_amr.specs.File.{stbl_boxes};

use crate::chunk::Chunk;
use crate::field;
use boxes::walk::Form;
use boxes::way;
use entry_heads::kind;
use entry_records::field::Amr;
use entry_records::text;
use frames::codec::Codec;
use frames::run;
use wire::pen;

// The kind of a codec's entry.
fn kind_by(codec: Codec) -> usize
    ensures { result ≡ kind_by codec }
{
    match codec {
        Codec::Amr => kind::SAMR,
        Codec::Wideband => kind::SAWB,
    }
}

// The ticks of a second.
pub fn scale_by(codec: Codec) -> usize
    ensures { result ≡ scale_by codec }
{
    match codec {
        Codec::Amr => 8000,
        Codec::Wideband => 16000,
    }
}

// The ticks of a sample.
fn sample_ticks(codec: Codec) -> usize
    ensures { (result ≡ sample_ticks codec) × (result ≤ 320) }
{
    match codec {
        Codec::Amr => 160,
        Codec::Wideband => 320,
    }
}

// The ticks of n samples.
pub fn ticks_of(codec: Codec, n: usize) -> usize
    requires { n ≤ 65536 }
    ensures { result ≡ n * sample_ticks codec }
{
    n * sample_ticks(codec)
}

// Writes the one entry.
fn put_entry(out: &mut [u8], at: usize, codec: Codec, modes: usize) -> usize
    requires { at < 2 ^ 50 }
    ensures { Put (amr_text (entry_by codec modes)) out.old at result out.new × (result ≡ at + 53) }
{
    let mut entry = [0u8; 53];
    let f = Amr {
        kind: kind_by(codec),
        reference: 1,
        scale: scale_by(codec),
        vendor: 0,
        version: 0,
        modes,
        period: 0,
        frames: 1,
    };
    text::put_amr(&mut entry, f);
    pen::put_part(out, at, &entry)
}

// The entries.
fn put_stsd(out: &mut [u8], at: usize, codec: Codec, modes: usize) -> usize
    requires { at < 2 ^ 40 }
    ensures { Put (write (plain_box STSD (stsd_of codec modes) ∷ [])) out.old at result out.new × (result ≡ at + 69) }
{
    let a = field::put_fields(out, at + 8, &[4, 0, 4, 1], 0);
    let b = put_entry(out, a, codec, modes);
    way::put_header(out, at, b, Form::Plain, codes::STSD);
    b
}

// A table for n samples, by its fields; for no samples it has no item.
fn put_one(out: &mut [u8], at: usize, code: usize, n: usize, list: &[usize]) -> usize
    requires { (at < 2 ^ 40) × (span list.now ≤ 20) }
    ensures { Put (write (plain_box code (if_eq n 0 (fields (4 ∷ 0 ∷ 4 ∷ 0 ∷ [])) (fields list.now)) ∷ []))
        out.old at result out.new × (at ≤ result) × (result ≤ at + 28) }
{
    if n == 0 {
        return field::put_box(out, at, code, &[4, 0, 4, 0]);
    }
    field::put_box(out, at, code, list)
}

// The durations: one run of samples.
fn put_stts(out: &mut [u8], at: usize, codec: Codec, n: usize) -> usize
    requires { at < 2 ^ 40 }
    ensures { Put (write (plain_box STTS (stts_of codec n) ∷ [])) out.old at result out.new × (at ≤ result) × (result ≤ at + 28) }
{
    let ticks = sample_ticks(codec);
    put_one(out, at, codes::STTS, n, &[4, 0, 4, 1, 4, n, 4, ticks])
}

// The chunks' lengths: one run of chunks.
fn put_stsc(out: &mut [u8], at: usize, n: usize) -> usize
    requires { at < 2 ^ 40 }
    ensures { Put (write (plain_box STSC (stsc_of n) ∷ [])) out.old at result out.new × (at ≤ result) × (result ≤ at + 28) }
{
    put_one(out, at, codes::STSC, n, &[4, 0, 4, 1, 4, 1, 4, n, 4, 1])
}

// The chunks' offsets: one chunk.
fn put_stco(out: &mut [u8], at: usize, n: usize, offset: usize) -> usize
    requires { at < 2 ^ 40 }
    ensures { Put (write (plain_box STCO (stco_of n offset) ∷ [])) out.old at result out.new × (at ≤ result) × (result ≤ at + 28) }
{
    put_one(out, at, codes::STCO, n, &[4, 0, 4, 1, 4, offset])
}

// Writes the size of each good frame from the front of a part on.
fn put_sizes(out: &mut [u8], at: usize, codec: Codec, part: &[u8]) -> usize
    requires { (at < 2 ^ 45) × (length (frames codec part.now) ≤ 65536) }
    ensures { Put (sizes_of (frames codec part.now)) out.old at result out.new
        × (result ≡ at + 4 * length (frames codec part.now)) }
{
    let mut to = at;
    let mut i = 0;
    while let Some(size) = run::front(codec, &part[i..]) {
        to = pen::put_word(out, to, size);
        i += size;
    }
    to
}

// The samples' sizes.
fn put_stsz(out: &mut [u8], at: usize, codec: Codec, part: &[u8], n: usize) -> usize
    requires { (at < 2 ^ 40) × (n ≡ length (frames codec part.now)) × (n ≤ 65536) }
    ensures { Put (write (plain_box STSZ (stsz_of (frames codec part.now)) ∷ [])) out.old at result out.new
        × (at ≤ result) × (result ≤ at + 20 + 4 * n) }
{
    let a = field::put_fields(out, at + 8, &[4, 0, 4, 0, 4, n], 0);
    let r = put_sizes(out, a, codec, part);
    way::put_header(out, at, r, Form::Plain, codes::STSZ);
    r
}

// The tables of a part's good frames, as the one chunk.
pub fn put_stbl(out: &mut [u8], at: usize, part: &[u8], k: Chunk) -> usize
    requires { (at < 2 ^ 39) × ChunkOf (frames k.codec part.now) k }
    ensures { Put (write (plain_box STBL (write (stbl_boxes k.codec (frames k.codec part.now) k.offset)) ∷ []))
        out.old at result out.new × (at ≤ result) × (result < 2 ^ 40) }
{
    let codec = k.codec;
    let n = k.run.count;
    let a = put_stsd(out, at + 8, codec, k.run.modes);
    let b = put_stts(out, a, codec, n);
    let c = put_stsc(out, b, n);
    let d = put_stsz(out, c, codec, part, n);
    let r = put_stco(out, d, n, k.offset);
    way::put_header(out, at, r, Form::Plain, codes::STBL);
    r
}
