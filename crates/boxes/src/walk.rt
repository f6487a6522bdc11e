// The walk over the boxes of a part, by value.
ghost use Rattle.std.specs.Prelude.{◌≡◌, ◌+◌, ◌≤◌, length, drop};
ghost use Rattle.boxes.specs.Box.{is_plain, is_open};
ghost use Rattle.boxes.specs.Walk.{said_by, step_at, plainly, payload};

use wire::number;

// The length of a plain header, and of a wide one.
pub const HEAD: usize = 8;

pub const WIDE_HEAD: usize = 16;

// The length of version, flags and count, which stand before the boxes that an `stsd` or a `dref` lists.
pub const FRONT: usize = 8;

// How a header says the size of its box: in its size field; in eight bytes more, after a 1; or by a 0 that it reaches to the end.
#[derive(Clone, Copy, Debug, PartialEq, Eq)]
pub enum Form {
    Plain,
    Wide,
    Open,
}

// Whether a header is plain.
pub fn is_plain(form: Form) -> bool
    ensures { result ≡ is_plain form }
{
    matches!(form, Form::Plain)
}

// Whether a box is open.
pub fn is_open(form: Form) -> bool
    ensures { result ≡ is_open form }
{
    matches!(form, Form::Open)
}

// The place that a walk has come to.
#[derive(Clone, Copy, Debug, PartialEq, Eq)]
pub struct Walk {
    pub at: usize,
}

// A box in a part: where it starts, its header's form and length, how long all of it is, and its code.
#[derive(Clone, Copy, Debug, PartialEq, Eq)]
pub struct BoxAt {
    pub at: usize,
    pub form: Form,
    pub head: usize,
    pub span: usize,
    pub code: usize,
}

#[derive(Clone, Copy, Debug, PartialEq, Eq)]
pub enum Step {
    Found(BoxAt, Walk),
    End,
    Broken(usize),
}

// What a header says: its form and length, and how long all of its box is.
#[derive(Clone, Copy, Debug, PartialEq, Eq)]
struct Says {
    form: Form,
    head: usize,
    span: usize,
}

// What the header at a place says, the form that most boxes have first.
fn said(part: &[u8], at: usize) -> Says
    requires { at + 8 ≤ length part.now }
    ensures { result ≡ said_by (drop at part.now) }
{
    let field = number::word32_in(part, at);
    if 1 < field {
        return Says {
            form: Form::Plain,
            head: HEAD,
            span: field,
        };
    }
    let left = part.len() - at;
    if field == 0 {
        return Says {
            form: Form::Open,
            head: HEAD,
            span: left,
        };
    }
    // A header that doesn't fit says no size, and so less than its own length: the box is broken.
    if left < WIDE_HEAD {
        return Says {
            form: Form::Wide,
            head: WIDE_HEAD,
            span: 0,
        };
    }
    Says {
        form: Form::Wide,
        head: WIDE_HEAD,
        span: number::word64_in(part, at + 8),
    }
}

impl Walk {
    // The box at the walk's place, with the walk past it.
    pub fn step(self, part: &[u8]) -> Step
        ensures { result ≡ step_at part.now self.at }
    {
        let at = self.at;
        let n = part.len();
        if n <= at {
            return Step::End;
        }
        let left = n - at;
        if left < HEAD {
            return Step::Broken(at);
        }
        let s = said(part, at);
        if s.span < s.head {
            return Step::Broken(at);
        }
        if left < s.span {
            return Step::Broken(at);
        }
        let form = s.form;
        Step::Found(
            BoxAt {
                at,
                form,
                head: s.head,
                span: s.span,
                code: number::word32_in(part, at + 4),
            },
            Walk { at: at + s.span },
        )
    }

    // The same of plain boxes alone, in fewer steps: another box is none here.
    pub fn plain_step(self, part: &[u8]) -> Step
        ensures { result ≡ plainly self.at (step_at part.now self.at) }
    {
        let at = self.at;
        let n = part.len();
        if n <= at {
            return Step::End;
        }
        let left = n - at;
        if left < HEAD {
            return Step::Broken(at);
        }
        let span = number::word32_in(part, at);
        if span < HEAD {
            return Step::Broken(at);
        }
        if left < span {
            return Step::Broken(at);
        }
        Step::Found(
            BoxAt {
                at,
                form: Form::Plain,
                head: HEAD,
                span,
                code: number::word32_in(part, at + 4),
            },
            Walk { at: at + span },
        )
    }
}

// The payload of a box that was found.
pub fn body(part: &[u8], b: BoxAt) -> &[u8]
    requires { (b.head ≤ b.span) × (b.at + b.span ≤ length part.now) }
    ensures { result.now ≡ payload part.now b }
{
    let from = b.at + b.head;
    let to = b.at + b.span;
    &part[from..to]
}
