// Rule 5 of one `stsd` or `dref`.
#![tactic(auto, unfolding(crate::specs::Five::list_form_in, wire::specs::Tests::if_eq))]

ghost use Rattle.std.specs.Prelude.{◌≡◌};
ghost use Rattle.rule_lists.specs.Five.{list_form, listed as listed_by, list_form_in};

use boxes::seek;
use boxes::walk::FRONT;
use wire::{lend, number};

// How many boxes a payload says that it lists, and 0 where it doesn't start as rule 5 wants it.
pub fn listed(body: &[u8]) -> usize
    ensures { result ≡ listed_by body.now }
{
    if body.len() < FRONT {
        return 0;
    }
    if number::word32_in(body, 0) != 0 {
        return 0;
    }
    number::word32_in(body, 4)
}

// Whether a payload has the form of rule 5.
pub fn list_form(body: &[u8]) -> bool
    ensures { result ≡ list_form body.now }
{
    let n = listed(body);
    n != 0 && seek::tally(lend::rest(body, FRONT), seek::ANY) == n
}

// The same of a box in a container of kind k, where it is an `stsd` or a `dref`.
pub fn form_in(k: usize, c: usize, body: &[u8]) -> bool
    ensures { result ≡ list_form_in k c body.now }
{
    match (k, c) {
        (codes::STBL, codes::STSD) | (codes::DINF, codes::DREF) => list_form(body),
        _ => true,
    }
}
