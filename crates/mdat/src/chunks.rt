// Rule 8 of a track's tables.
ghost use Rattle.std.specs.Prelude.{◌≡◌, false, length};
ghost use Rattle.boxes.specs.Boxes.{boxes};
ghost use Rattle.sample_tables.specs.Tables.{items};
ghost use Rattle.sample_tables.specs.Chunks.{first_sample, Covers};
ghost use Rattle.mdat.specs.Rules.{Ready, Goes, chunks_lie};
ghost use Rattle.mdat.specs.Search.{Media, Index, LookedAs, TestedAs};

use crate::payload::{Missed, Payload};
use crate::{index, payload};
use sample_tables::{chunk, run, size, table};

// Where the chunks of run i lie, those from one to an end: each inside the payload of one `mdat` of the file, and the last in this one.
fn run_lies(
    file: &[u8],
    index: &[u32],
    stsc: &[u8],
    stsz: &[u8],
    stco: &[u8],
    i: usize,
    from: usize,
    end: usize,
    start: usize,
    hint: Payload,
) -> Result<Payload, Missed>
    requires { Ready stsc.now stsz.now stco.now × Covers stsc.now (items stco.now) i from end × (start ≡ first_sample stsc.now from) × Media file.now hint × Index file.now index.now }
    ensures { LookedAs file.now (Goes (boxes file.now) stsc.now stsz.now stco.now from end) (chunks_lie (boxes file.now) stsc.now stsz.now stco.now ≡ false) (length index.now ≡ 0) result }
{
    let per = run::per_chunk(stsc, i);
    let mut last = hint;
    let mut first = start;
    for k in from..end {
        let bytes = size::bytes_in(stsz, first, per);
        last = payload::find(file, index, last, chunk::offset_at(stco, k), bytes)?;
        first += per;
    }
    Ok(last)
}

// The same of all chunks of a track, run by run.
fn all_lie(
    file: &[u8],
    index: &[u32],
    stsc: &[u8],
    stsz: &[u8],
    stco: &[u8],
    hint: Payload,
) -> Result<Payload, Missed>
    requires { Ready stsc.now stsz.now stco.now × Index file.now index.now × Media file.now hint }
    ensures { TestedAs file.now (chunks_lie (boxes file.now) stsc.now stsz.now stco.now) (length index.now ≡ 0) result }
{
    let n = table::items(stsc);
    let chunks = table::items(stco);
    let mut last = hint;
    let mut k = 0;
    let mut first = 0;
    for i in 0..n {
        let end = run::run_end(stsc, chunks, i);
        last = run_lies(file, index, stsc, stsz, stco, i, k, end, first, last)?;
        first += (end - k) * run::per_chunk(stsc, i);
        k = end;
    }
    Ok(last)
}

// By an index of the file.
fn by_index(file: &[u8], stsc: &[u8], stsz: &[u8], stco: &[u8], hint: Payload) -> bool
    requires { Ready stsc.now stsz.now stco.now × Media file.now hint }
    ensures { result ≡ chunks_lie (boxes file.now) stsc.now stsz.now stco.now }
{
    let mut index = [0u32; index::PLACES];
    index::fill(&mut index, file);
    all_lie(file, &index, stsc, stsz, stco, hint).is_ok()
}

// Whether each chunk of a track lies inside the payload of one `mdat` of the file. The hint is tried first, and an index made where one is too far off.
pub fn eight(file: &[u8], stsc: &[u8], stsz: &[u8], stco: &[u8], hint: Payload) -> bool
    requires { Ready stsc.now stsz.now stco.now × Media file.now hint }
    ensures { result ≡ chunks_lie (boxes file.now) stsc.now stsz.now stco.now }
{
    match all_lie(file, &[], stsc, stsz, stco, hint) {
        Ok(_) => true,
        Err(Missed::Out) => false,
        Err(Missed::Far) => by_index(file, stsc, stsz, stco, hint),
    }
}
