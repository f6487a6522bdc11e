// The bytes that fields make.
#![tactic(auto, using(crate::proofs::Lengths::amr_length, crate::proofs::Lengths::plain_length, crate::proofs::Lengths::rated_length, wire::proofs::Writing::pen_none), unfolding(crate::specs::Texts::h263_text, wire::specs::Tests::if_eq))]

ghost use Rattle.std.specs.Prelude.{◌≡◌, length};
ghost use Rattle.wire.specs.Writing.{Put};
ghost use Rattle.entry_records.specs.Texts.{amr_text, plain_text, rated_text, h263_text, text_of};

use crate::field::{Amr, H263, Record};
use entry_heads::{head, kind, put};
use wire::pen;

// Writes a `samr` or `sawb` entry.
pub fn put_amr(out: &mut [u8], f: Amr) -> usize
    ensures { Put (amr_text f) out.old 0 result out.new }
{
    let a = head::put_audio(out, 53, kind::code(f.kind), f.reference, f.scale);
    let b = put::header(out, a, 17, codes::DAMR);
    let c = pen::put_number(out, b, 4, f.vendor);
    let d = pen::put_number(out, c, 1, f.version);
    let e = pen::put_number(out, d, 2, f.modes);
    let g = pen::put_number(out, e, 1, f.period);
    pen::put_number(out, g, 1, f.frames)
}

// Writes an `s263` entry up to its profile; the two sizes are those of the entry and of its `d263`.
fn put_plain(out: &mut [u8], span: usize, inner: usize, f: H263) -> usize
    ensures { Put (plain_text span inner f) out.old 0 result out.new × (result ≡ 101) }
{
    let a = head::put_visual(
        out,
        span,
        codes::S263,
        f.reference,
        f.width,
        f.height,
        &[0u8; 32],
    );
    let b = put::header(out, a, inner, codes::D263);
    let c = pen::put_number(out, b, 4, f.vendor);
    let d = pen::put_number(out, c, 1, f.version);
    let e = pen::put_number(out, d, 1, f.level);
    pen::put_number(out, e, 1, f.profile)
}

// Writes an `s263` entry with a `bitr`.
fn put_rated(out: &mut [u8], f: H263) -> usize
    ensures { Put (rated_text f) out.old 0 result out.new }
{
    let a = put_plain(out, 117, 31, f);
    let b = put::header(out, a, 16, codes::BITR);
    let c = pen::put_number(out, b, 4, f.rates.average);
    pen::put_number(out, c, 4, f.rates.maximum)
}

// Writes an `s263` entry.
fn put_h263(out: &mut [u8], f: H263) -> usize
    ensures { Put (h263_text f) out.old 0 result out.new }
{
    if f.rates.given == 1 {
        put_rated(out, f)
    } else {
        put_plain(out, 101, 15, f)
    }
}

// Writes the entry of a record.
pub fn put_record(out: &mut [u8], fields: Option<Record>) -> usize
    ensures { Put (text_of fields) out.old 0 result out.new }
{
    match fields {
        Some(Record::Speech(f)) => put_amr(out, f),
        Some(Record::Picture(f)) => put_h263(out, f),
        None => 0,
    }
}

// The length of an `s263` entry.
fn h263_length(f: H263) -> usize
    ensures { result ≡ length (h263_text f) }
{
    if f.rates.given == 1 { 117 } else { 101 }
}

// The length of the entry of a record.
pub fn text_length(fields: Option<Record>) -> usize
    ensures { result ≡ length (text_of fields) }
{
    match fields {
        Some(Record::Speech(_)) => 53,
        Some(Record::Picture(f)) => h263_length(f),
        None => 0,
    }
}
