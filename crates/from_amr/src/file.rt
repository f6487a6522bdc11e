// The file: its boxes, each container's body first and then its header, so that sizes follow.
ghost use Rattle.std.specs.Prelude.{◌≡◌, [], ◌∷◌, ◌+◌, ◌^◌, ◌≤◌, ◌<◌, length};
ghost use Rattle.codes.specs.Codes.{TRAK, MDIA, MINF, DINF, DREF, MDAT};
ghost use Rattle.wire.specs.Writing.{Put};
ghost use Rattle.boxes.specs.Box.{plain_box, write};
ghost use Rattle.frames.specs.Frames.{frames, joined};
ghost use Rattle.frames.specs.Modes.{RunOf};
ghost use Rattle.from_amr.specs.Boxes.{dref as dref_of};
ghost use Rattle.from_amr.specs.Chunks.{ChunkOf};
ghost use Rattle.from_amr.specs.File.{dinf_boxes, minf_boxes, mdia_boxes, trak_boxes, ftyp_box, moov_box, file_of, StartsAt};

use crate::chunk::Chunk;
use crate::{field, header, table};
use boxes::walk::Form;
use boxes::way;
use frames::codec::Codec;
use frames::run::Run;
use wire::pen;

// The data references: one, to this file.
fn put_dref(out: &mut [u8], at: usize) -> usize
    requires { at < 2 ^ 40 }
    ensures { Put (write (plain_box DREF dref_of ∷ [])) out.old at result out.new × (result ≡ at + 28) }
{
    let a = field::put_fields(out, at + 8, &[4, 0, 4, 1], 0);
    let b = field::put_box(out, a, codes::URL, &[4, 1]);
    way::put_header(out, at, b, Form::Plain, codes::DREF);
    b
}

// What says where the data is.
fn put_dinf(out: &mut [u8], at: usize) -> usize
    requires { at < 2 ^ 39 }
    ensures { Put (write (plain_box DINF (write dinf_boxes) ∷ [])) out.old at result out.new × (result ≡ at + 36) }
{
    let r = put_dref(out, at + 8);
    way::put_header(out, at, r, Form::Plain, codes::DINF);
    r
}

// The media's information.
fn put_minf(out: &mut [u8], at: usize, part: &[u8], k: Chunk) -> usize
    requires { (at < 2 ^ 38) × ChunkOf (frames k.codec part.now) k }
    ensures { Put (write (plain_box MINF (write (minf_boxes k.codec (frames k.codec part.now) k.offset)) ∷ []))
        out.old at result out.new × (at ≤ result) × (result < 2 ^ 40) }
{
    let a = field::put_box(out, at + 8, codes::SMHD, &[4, 0, 2, 0, 2, 0]);
    let b = put_dinf(out, a);
    let r = table::put_stbl(out, b, part, k);
    way::put_header(out, at, r, Form::Plain, codes::MINF);
    r
}

// The media.
fn put_mdia(out: &mut [u8], at: usize, part: &[u8], k: Chunk) -> usize
    requires { (at < 2 ^ 37) × ChunkOf (frames k.codec part.now) k }
    ensures { Put (write (plain_box MDIA (write (mdia_boxes k.codec (frames k.codec part.now) k.offset)) ∷ []))
        out.old at result out.new × (at ≤ result) × (result < 2 ^ 40) }
{
    let scale = table::scale_by(k.codec);
    let ticks = table::ticks_of(k.codec, k.run.count);
    let a = field::put_box(
        out,
        at + 8,
        codes::MDHD,
        &[4, 0, 8, 0, 4, scale, 4, ticks, 2, 0x55C4, 2, 0],
    );
    let b = field::put_box(
        out,
        a,
        codes::HDLR,
        &[4, 0, 4, 0, 4, codes::SOUN, 12, 0, 1, 0],
    );
    let r = put_minf(out, b, part, k);
    way::put_header(out, at, r, Form::Plain, codes::MDIA);
    r
}

// The track.
fn put_trak(out: &mut [u8], at: usize, part: &[u8], k: Chunk) -> usize
    requires { (at < 2 ^ 36) × ChunkOf (frames k.codec part.now) k }
    ensures { Put (write (plain_box TRAK (write (trak_boxes k.codec (frames k.codec part.now) k.offset)) ∷ []))
        out.old at result out.new × (at ≤ result) × (result < 2 ^ 40) }
{
    let ticks = table::ticks_of(k.codec, k.run.count);
    let a = header::put_tkhd(out, at + 8, ticks);
    let r = put_mdia(out, a, part, k);
    way::put_header(out, at, r, Form::Plain, codes::TRAK);
    r
}

// The movie.
fn put_moov(out: &mut [u8], at: usize, part: &[u8], k: Chunk) -> usize
    requires { (at < 2 ^ 35) × ChunkOf (frames k.codec part.now) k }
    ensures { Put (write (moov_box k.codec (frames k.codec part.now) k.offset ∷ [])) out.old at result out.new
        × (at ≤ result) × (result < 2 ^ 40) }
{
    let scale = table::scale_by(k.codec);
    let ticks = table::ticks_of(k.codec, k.run.count);
    let a = header::put_mvhd(out, at + 8, scale, ticks);
    let r = put_trak(out, a, part, k);
    way::put_header(out, at, r, Form::Plain, codes::MOOV);
    r
}

// The brands.
fn put_ftyp(out: &mut [u8], at: usize) -> usize
    requires { at < 2 ^ 40 }
    ensures { Put (write (ftyp_box ∷ [])) out.old at result out.new × (result ≡ at + 24) }
{
    field::put_box(
        out,
        at,
        codes::FTYP,
        &[4, codes::GP6, 4, 0, 4, codes::GP6, 4, codes::ISOM],
    )
}

// The samples.
fn put_mdat(out: &mut [u8], at: usize, part: &[u8]) -> usize
    requires { (at < 2 ^ 40) × (length part.now < 2 ^ 40) }
    ensures { Put (write (plain_box MDAT part.now ∷ [])) out.old at result out.new }
{
    let r = pen::put_part(out, at + 8, part);
    way::put_header(out, at, r, Form::Plain, codes::MDAT);
    r
}

// Where the payload of `mdat` starts in a file of so many frames.
pub fn start(count: usize) -> usize
    requires { count ≤ 65536 }
    ensures { (StartsAt count result) × (result < 2 ^ 20) }
{
    if count == 0 {
        return 526;
    }
    550 + 4 * count
}

// Writes the file of a part that is nothing but good frames, whose run is told.
pub fn put(out: &mut [u8], codec: Codec, part: &[u8], run: Run) -> usize
    requires { (RunOf (frames codec part.now) run) × (joined (frames codec part.now) ≡ part.now) × (run.count ≤ 65536) × (length part.now < 2 ^ 40) }
    ensures { Put (file_of codec (frames codec part.now)) out.old 0 result out.new }
{
    let k = Chunk {
        codec,
        run,
        offset: start(run.count),
    };
    let a = put_ftyp(out, 0);
    let b = put_moov(out, a, part, k);
    put_mdat(out, b, part)
}
