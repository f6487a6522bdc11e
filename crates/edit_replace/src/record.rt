// Whether a kind of entry takes a record.
ghost use Rattle.std.specs.Prelude.{◌≡◌};
ghost use Rattle.edit_replace.specs.Replace.{record_code, takes as takes_of};

use entry_heads::kind;
use wire::number;

// The code of the record of a kind, and 0 for a kind that isn't editable: a number, since the definition has one there.
#[tactic(auto, unfolding(crate::specs::Replace::record_code, wire::specs::Tests::if_eq))]
fn record_code(kind: usize) -> usize
    ensures { result ≡ record_code kind }
{
    match kind {
        kind::SAMR | kind::SAWB => codes::DAMR,
        kind::S263 => codes::D263,
        _ => 0,
    }
}

// Whether a kind is editable, and a record of 8 bytes or more has its code.
#[tactic(auto, unfolding(crate::specs::Replace::takes, wire::specs::Clauses::every, wire::specs::Clauses::is_lt, wire::specs::Clauses::is_eq, wire::specs::Tests::if_lt))]
pub fn takes(kind: usize, new: &[u8]) -> bool
    ensures { result ≡ takes_of kind new.now }
{
    let code = record_code(kind);
    0 < code && (new.len() < 8 || number::word32(new, 4) == code)
}
