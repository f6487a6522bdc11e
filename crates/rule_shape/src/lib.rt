// Rules 2 and 3 and refusal 23 of one container: which boxes it has to have, or may not have, and which form they may have.
#![tactic(auto, unfolding(crate::specs::Two::may_have, crate::specs::Three::needed, crate::specs::Three::exactly, crate::specs::Three::besides, crate::specs::Three::shape, crate::specs::TwentyThree::barred, wire::specs::Clauses::every, wire::specs::Clauses::is_eq, wire::specs::Clauses::is_lt, wire::specs::Clauses::is_le, wire::specs::Tests::if_eq))]

ghost use Rattle.std.specs.Prelude.{◌≡◌};
ghost use Rattle.wire.specs.Clauses.{is_lt};
ghost use Rattle.boxes.specs.Boxes.{boxes};
ghost use Rattle.boxes.specs.Seek.{count};
ghost use Rattle.rule_shape.specs.Three.{exactly as exactly_of, needed, first, besides as besides_of, shape};
ghost use Rattle.rule_shape.specs.TwentyThree.{barred};
ghost use Rattle.rule_shape.specs.Two.{may_have};

use boxes::containers::FILE;
use boxes::walk::{Form, Step, Walk};
use boxes::{seek, walk};

// Whether a box may have a form in a container of kind k, as rule 2 asks.
pub fn may_have(k: usize, form: Form) -> bool
    ensures { result ≡ may_have k form }
{
    k == FILE || !walk::is_open(form)
}

// Whether a part has exactly n boxes of each code.
fn exactly(n: usize, part: &[u8], list: &[usize]) -> bool
    ensures { result ≡ exactly_of n list.now (boxes part.now) }
{
    for code in list {
        if seek::count(part, *code) != n {
            return false;
        }
    }
    true
}

// Whether a container of kind k has exactly one of each box that it needs.
fn one_each(k: usize, part: &[u8]) -> bool
    ensures { result ≡ exactly_of 1 (needed k) (boxes part.now) }
{
    match k {
        FILE => exactly(1, part, &[codes::FTYP, codes::MOOV]),
        codes::MOOV => exactly(1, part, &[codes::MVHD]),
        codes::TRAK => exactly(1, part, &[codes::TKHD, codes::MDIA]),
        codes::MDIA => exactly(1, part, &[codes::MDHD, codes::HDLR, codes::MINF]),
        codes::MINF => exactly(1, part, &[codes::DINF, codes::STBL]),
        codes::DINF => exactly(1, part, &[codes::DREF]),
        codes::STBL => exactly(
            1,
            part,
            &[
                codes::STSD,
                codes::STTS,
                codes::STSC,
                codes::STSZ,
                codes::STCO,
            ],
        ),
        _ => true,
    }
}

// The code of the first box, and 0 where there is none.
pub fn first_code(part: &[u8]) -> usize
    ensures { result ≡ first (boxes part.now) }
{
    let w = Walk { at: 0 };
    match w.step(part) {
        Step::Found(b, _) => b.code,
        Step::End => 0,
        Step::Broken(_) => 0,
    }
}

// Whether a part has more than n boxes of a code: not all of them need be counted.
fn more_than(n: usize, part: &[u8], c: usize) -> bool
    ensures { result ≡ is_lt n (count c (boxes part.now)) }
{
    seek::nth(part, c, n).is_some()
}

// Whether the file starts with `ftyp`, and `moov` has 1 to 4 `trak`.
fn besides(k: usize, part: &[u8]) -> bool
    ensures { result ≡ besides_of k (boxes part.now) }
{
    match k {
        FILE => first_code(part) == codes::FTYP,
        codes::MOOV => more_than(0, part, codes::TRAK) && !more_than(4, part, codes::TRAK),
        _ => true,
    }
}

// Whether a container of kind k has the boxes of rule 3. What looks at few of them is asked first.
pub fn shape_of(k: usize, part: &[u8]) -> bool
    ensures { result ≡ shape k (boxes part.now) }
{
    besides(k, part) && one_each(k, part)
}

// Whether a container of kind k has none of the boxes that no edit takes.
pub fn editable_of(k: usize, part: &[u8]) -> bool
    ensures { result ≡ exactly_of 0 (barred k) (boxes part.now) }
{
    match k {
        FILE => exactly(
            0,
            part,
            &[codes::MOOF, codes::MFRA, codes::SIDX, codes::META],
        ),
        codes::MOOV | codes::TRAK => exactly(0, part, &[codes::META]),
        codes::STBL => exactly(0, part, &[codes::CO64, codes::SAIO]),
        _ => true,
    }
}
