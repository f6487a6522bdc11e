// The heads of sample entries: written, and told from other bytes.
#![tactic(auto, unfolding(crate::specs::Heads::common_rule, crate::specs::Heads::audio_rule, crate::specs::Heads::name_rule, crate::specs::Heads::visual_rule, crate::specs::Heads::head_rule, crate::specs::Heads::head_size, wire::specs::Clauses::every, wire::specs::Clauses::is_eq, wire::specs::Clauses::is_le, wire::specs::Clauses::one_if, wire::specs::Tests::if_eq))]

ghost use Rattle.std.specs.Prelude.{◌≡◌, ◌<◌, length};
ghost use Rattle.wire.specs.Writing.{Put};
ghost use Rattle.entry_heads.specs.Heads.{common_head, audio_head, visual_start, visual_head, head_size, common_rule, audio_rule, name_rule, visual_rule, head_rule};

use crate::{kind, put};
use wire::{number, pen};

// The lengths of the three heads.
const COMMON: usize = 16;

const AUDIO: usize = 36;

const VISUAL: usize = 86;

// Writes the beginning of all entries.
fn put_common(out: &mut [u8], span: usize, code: usize, reference: usize) -> usize
    ensures { Put (common_head span code reference) out.old 0 result out.new × (result ≡ 16) }
{
    let a = put::header(out, 0, span, code);
    let b = pen::put_number(out, a, 6, 0);
    pen::put_number(out, b, 2, reference)
}

// Writes the head of an audio entry.
pub fn put_audio(out: &mut [u8], span: usize, code: usize, reference: usize, scale: usize) -> usize
    ensures { Put (audio_head span code reference scale) out.old 0 result out.new × (result ≡ 36) }
{
    let a = put_common(out, span, code, reference);
    let b = pen::put_number(out, a, 8, 0);
    let c = pen::put_number(out, b, 2, 2);
    let d = pen::put_number(out, c, 2, 16);
    let e = pen::put_number(out, d, 4, 0);
    let f = pen::put_number(out, e, 2, scale);
    pen::put_number(out, f, 2, 0)
}

// Writes the head of a visual entry up to its resolutions.
fn put_visual_start(
    out: &mut [u8],
    span: usize,
    code: usize,
    reference: usize,
    width: usize,
    height: usize,
) -> usize
    ensures { Put (visual_start span code reference width height) out.old 0 result out.new × (result ≡ 44) }
{
    let a = put_common(out, span, code, reference);
    let b = pen::put_number(out, a, 16, 0);
    let c = pen::put_number(out, b, 2, width);
    let d = pen::put_number(out, c, 2, height);
    let e = pen::put_number(out, d, 4, 0x00480000);
    pen::put_number(out, e, 4, 0x00480000)
}

// Writes the head of a visual entry.
pub fn put_visual(
    out: &mut [u8],
    span: usize,
    code: usize,
    reference: usize,
    width: usize,
    height: usize,
    name: &[u8],
) -> usize
    requires { length name.now ≡ 32 }
    ensures { Put (visual_head span code reference width height name.now) out.old 0 result out.new × (result ≡ 86) }
{
    let a = put_visual_start(out, span, code, reference, width, height);
    let b = pen::put_number(out, a, 4, 0);
    let c = pen::put_number(out, b, 2, 1);
    let d = pen::put_part(out, c, name);
    let e = pen::put_number(out, d, 2, 24);
    pen::put_number(out, e, 2, 0xFFFF)
}

// Whether an entry has the beginning of all entries.
fn common(entry: &[u8]) -> bool
    ensures { result ≡ common_rule entry.now }
{
    entry.len() >= COMMON && number::zeros(entry, 8, 6)
}

// Whether an entry has an audio head.
fn audio(entry: &[u8]) -> bool
    ensures { result ≡ audio_rule entry.now }
{
    entry.len() >= AUDIO
        && number::zeros(entry, 8, 6)
        && number::zeros(entry, 16, 8)
        && number::word16_in(entry, 24) == 2
        && number::word16_in(entry, 26) == 16
        && number::word32_in(entry, 28) == 0
        && number::word16_in(entry, 34) == 0
}

// Whether the name of a visual entry is free or zero bytes.
fn name(kind: usize, entry: &[u8]) -> bool
    ensures { result ≡ name_rule kind entry.now }
{
    kind == kind::AVC1 || number::zeros(entry, 50, 32)
}

// Whether an entry has the visual head of its kind.
fn visual(kind: usize, entry: &[u8]) -> bool
    ensures { result ≡ visual_rule kind entry.now }
{
    entry.len() >= VISUAL
        && number::zeros(entry, 8, 6)
        && number::zeros(entry, 16, 16)
        && number::word32_in(entry, 36) == 0x00480000
        && number::word32_in(entry, 40) == 0x00480000
        && number::word32_in(entry, 44) == 0
        && number::word16_in(entry, 48) == 1
        && name(kind, entry)
        && number::word16_in(entry, 82) == 24
        && number::word16_in(entry, 84) == 0xFFFF
}

// Whether an entry has the head of its kind.
pub fn rule(kind: usize, entry: &[u8]) -> bool
    ensures { result ≡ head_rule kind entry.now }
{
    match kind::handler(kind) {
        codes::SOUN => audio(entry),
        codes::VIDE => visual(kind, entry),
        _ => common(entry),
    }
}

// The length of the head of a kind.
pub fn size(kind: usize) -> usize
    ensures { result ≡ head_size kind }
{
    match kind::handler(kind) {
        codes::SOUN => AUDIO,
        codes::VIDE => VISUAL,
        _ => COMMON,
    }
}
