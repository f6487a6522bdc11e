// Rule 9: what a `dref` lists.
ghost use Rattle.std.specs.Prelude.{◌≡◌, ◌+◌, ◌^◌, ◌<◌, length};
ghost use Rattle.boxes.specs.Boxes.{boxes};
ghost use Rattle.rule_lists.specs.Nine.{is_url, urls_from, urls_in, urls_tiling, url_list};

use crate::form;
use boxes::walk;
use boxes::walk::{Step, Walk};
use rule::Verdict;
use wire::{lend, number};

// Whether a box is a `url ` of this file.
#[tactic(auto, unfolding(crate::specs::Nine::is_url, wire::specs::Clauses::every, wire::specs::Clauses::is_eq))]
fn is_url(code: usize, body: &[u8]) -> bool
    ensures { result ≡ is_url code body.now }
{
    code == codes::URL && body.len() == 4 && number::word32(body, 0) == 1
}

// The first box of a part that starts at place base which is none.
fn urls_from(part: &[u8], base: usize) -> Verdict
    requires { base + length part.now < 2 ^ 64 }
    ensures { result ≡ urls_from (boxes part.now) base }
{
    let mut w = Walk { at: 0 };
    loop {
        match w.step(part) {
            Step::Found(b, next) => {
                if !is_url(b.code, walk::body(part, b)) {
                    return Err(base + b.at);
                }
                w = next;
            }
            Step::End => {
                return Ok(());
            }
            Step::Broken(_) => {
                return Ok(());
            }
        }
    }
}

// How many boxes tile a part where each is plain and a `url ` of this file; else 0.
fn tally(part: &[u8]) -> usize
    ensures { result ≡ urls_tiling part.now }
{
    let mut w = Walk { at: 0 };
    let mut n = 0;
    loop {
        match w.plain_step(part) {
            Step::Found(b, next) => {
                if !is_url(b.code, walk::body(part, b)) {
                    return 0;
                }
                n += 1;
                w = next;
            }
            Step::End => {
                return n;
            }
            Step::Broken(_) => {
                return 0;
            }
        }
    }
}

// Rules 5 and 9 of a `dref`, by one walk.
pub fn url_list(dref: &[u8]) -> bool
    ensures { result ≡ url_list dref.now }
{
    let n = form::listed(dref);
    n != 0 && tally(lend::rest(dref, walk::FRONT)) == n
}

// Rule 9 of a box of code c in a container of kind k, whose payload starts at place q.
pub fn urls_in(k: usize, c: usize, body: &[u8], q: usize) -> Verdict
    requires { q + length body.now < 2 ^ 63 }
    ensures { result ≡ urls_in k c body.now q }
{
    if k != codes::DINF {
        return Ok(());
    }
    if c != codes::DREF {
        return Ok(());
    }
    urls_from(lend::rest(body, walk::FRONT), q + walk::FRONT)
}
