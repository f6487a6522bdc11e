// Writers of one line and its parts. Each answers the place past its text, fit or not.
ghost use Rattle.std.specs.Prelude.{◌+◌, ◌^◌, ◌≤◌, ◌<◌, length};
ghost use Rattle.wire.specs.Clauses.{one_if};
ghost use Rattle.wire.specs.Writing.{Put};
ghost use Rattle.listing.specs.Lines.{handler_text, code_text, track_line, entry_named, entry_placed, yes_text, brand_line, refused_line};

use decimal::put_labelled;
use entry_heads::kind;
use rule::Refusal;
use sample_tables::time::MediaTicks;
use wire::pen;

// A handler's name.
fn put_handler(out: &mut [u8], at: usize, h: usize) -> usize
    requires { at < 2 ^ 62 }
    ensures { Put (handler_text h) out.old at result out.new × (result ≤ at + 5) }
{
    if h == codes::VIDE {
        return pen::put_part(out, at, b"vide");
    }
    if h == codes::SOUN {
        return pen::put_part(out, at, b"soun");
    }
    if h == codes::TEXT {
        return pen::put_part(out, at, b"text");
    }
    pen::put_part(out, at, b"other")
}

// A sample entry's code.
fn put_code(out: &mut [u8], at: usize, c: usize) -> usize
    requires { at < 2 ^ 62 }
    ensures { Put (code_text c) out.old at result out.new × (result ≤ at + 5) }
{
    if kind::of_code(c) == kind::OTHER {
        return pen::put_part(out, at, b"other");
    }
    pen::put_number(out, at, 4, c)
}

// A track's line.
pub fn put_track(
    out: &mut [u8],
    at: usize,
    t: usize,
    h: usize,
    ticks: MediaTicks,
    scale: usize,
) -> usize
    requires { at < 2 ^ 61 }
    ensures { Put (track_line t h ticks scale) out.old at result out.new × (result ≤ at + 100) }
{
    let a = put_labelled(out, at, b"track ", t);
    let b = pen::put_part(out, a, b" ");
    let c = put_handler(out, b, h);
    let d = put_labelled(out, c, b" ", ticks.0 as usize);
    let e = put_labelled(out, d, b"/", scale);
    pen::put_part(out, e, b"\n")
}

// The first half of an entry's line: its number, its track and its code.
pub fn put_named(out: &mut [u8], at: usize, i: usize, t: usize, c: usize) -> usize
    requires { at < 2 ^ 61 }
    ensures { Put (entry_named i t c) out.old at result out.new × (result ≤ at + 60) }
{
    let a = put_labelled(out, at, b"entry ", i);
    let b = put_labelled(out, a, b" track ", t);
    let d = pen::put_part(out, b, b" ");
    put_code(out, d, c)
}

// The second half: its place and its size.
pub fn put_placed(out: &mut [u8], at: usize, place: usize, span: usize) -> usize
    requires { at < 2 ^ 61 }
    ensures { Put (entry_placed place span) out.old at result out.new × (result ≤ at + 60) }
{
    let a = put_labelled(out, at, b" place ", place);
    let b = put_labelled(out, a, b" size ", span);
    pen::put_part(out, b, b"\n")
}

// The end of a brand's line.
fn put_yes(out: &mut [u8], at: usize, k: bool) -> usize
    requires { at < 2 ^ 62 }
    ensures { Put (yes_text (one_if k)) out.old at result out.new × (result ≤ at + 5) }
{
    if k {
        return pen::put_part(out, at, b" yes\n");
    }
    pen::put_part(out, at, b" no\n")
}

// A brand's line.
pub fn put_brand(out: &mut [u8], at: usize, code: usize, k: bool) -> usize
    requires { at < 2 ^ 61 }
    ensures { Put (brand_line code (one_if k)) out.old at result out.new × (result ≤ at + 15) }
{
    let a = pen::put_part(out, at, b"brand ");
    let b = pen::put_number(out, a, 4, code);
    put_yes(out, b, k)
}

// A refused file's line.
pub fn put_refused(out: &mut [u8], e: Refusal) -> usize
    ensures { Put (refused_line e.number e.place) out.old 0 result out.new }
{
    let a = put_labelled(out, 0, b"file ", e.number);
    let b = put_labelled(out, a, b" at ", e.place);
    pen::put_part(out, b, b"\n")
}
