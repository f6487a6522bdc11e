// Rule 4 of one box.
#![tactic(auto, unfolding(crate::specs::Forms::brands_form, crate::specs::Forms::head_form, crate::specs::Forms::handler_form, crate::specs::Forms::if_box, crate::specs::Forms::form, wire::specs::Clauses::every, wire::specs::Clauses::is_eq, wire::specs::Clauses::is_lt, wire::specs::Clauses::is_le, wire::specs::Tests::if_eq))]

ghost use Rattle.std.specs.Prelude.{◌≡◌};
ghost use Rattle.rule_headers.specs.Forms.{brands_form, head_form, handler_form, form as form_of};

use boxes::containers::FILE;
use wire::number;

// Whether an `ftyp` has its two numbers and 1 to 16 brands.
fn brands_form(body: &[u8]) -> bool
    ensures { result ≡ brands_form body.now }
{
    let n = body.len();
    n % 4 == 0 && n >= 12 && n <= 72
}

// Whether a header has its payload, version 0, and a number at 12 that is not 0.
fn head_form(n: usize, body: &[u8]) -> bool
    ensures { result ≡ head_form n body.now }
{
    body.len() == n && number::byte(body, 0) == 0 && number::word32(body, 12) != 0
}

// Whether an `hdlr` has its type.
fn handler_form(body: &[u8]) -> bool
    ensures { result ≡ handler_form body.now }
{
    body.len() >= 24
}

// Whether a box of a container of kind k is as rule 4 wants it.
pub fn form(k: usize, c: usize, body: &[u8]) -> bool
    ensures { result ≡ form_of k c body.now }
{
    match (k, c) {
        (FILE, codes::FTYP) => brands_form(body),
        (codes::MOOV, codes::MVHD) => head_form(100, body),
        (codes::TRAK, codes::TKHD) => head_form(84, body),
        (codes::MDIA, codes::MDHD) => head_form(24, body),
        (codes::MDIA, codes::HDLR) => handler_form(body),
        _ => true,
    }
}
