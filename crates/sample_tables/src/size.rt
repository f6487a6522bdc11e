// `stsz`: the sizes of samples.
ghost use Rattle.std.specs.Prelude.{◌≡◌, ◌+◌, ◌-◌, ◌*◌, ◌/◌, ◌^◌, ◌≤◌, ◌<◌, min, length};
ghost use Rattle.sample_tables.specs.Sizes.{common, four_at, sizes_form, sizes_listed, sample_count, size_at, bytes_from, Held};

use crate::table;
use wire::number;

// The sizes that the table holds: none beside a common size.
fn listed(stsz: &[u8]) -> usize
    ensures { (result ≡ sizes_listed stsz.now) × (result < 2 ^ 32) }
{
    if number::word32(stsz, 4) == 0 {
        return number::word32(stsz, 8);
    }
    0
}

// Whether a payload has rule 6's form.
pub fn sizes_form(stsz: &[u8]) -> bool
    ensures { result ≡ sizes_form stsz.now }
{
    table::has_form(stsz, 12 + 4 * listed(stsz))
}

// The sample count.
pub fn samples(stsz: &[u8]) -> usize
    ensures { (result ≡ sample_count stsz.now) × (result < 2 ^ 32) }
{
    number::word32(stsz, 8)
}

// The size of sample j, from 0.
pub fn size_at(stsz: &[u8], j: usize) -> usize
    requires { j < 65536 }
    ensures { (result ≡ size_at stsz.now j) × (result < 2 ^ 32) }
{
    let one = number::word32(stsz, 4);
    if one != 0 {
        return one;
    }
    number::word32(stsz, 12 + 4 * j)
}

// The sum of four sizes.
fn four(stsz: &[u8], at: usize) -> usize
    requires { at + 16 ≤ length stsz.now }
    ensures { (result ≡ four_at stsz.now at) × (result ≤ 4 * 4294967295) }
{
    number::word32_in(stsz, at)
        + number::word32_in(stsz, at + 4)
        + number::word32_in(stsz, at + 8)
        + number::word32_in(stsz, at + 12)
}

// The sum of n listed sizes from the given one on, one at a time.
fn few_from(stsz: &[u8], first: usize, n: usize) -> usize
    requires { (common stsz.now ≡ 0) × (first + n ≤ 65536) × (n ≤ (length stsz.now - (12 + 4 * first)) / 4) }
    ensures { (result ≡ bytes_from stsz.now first n) × (result ≤ n * 4294967295) }
{
    let mut sum = 0;
    for i in 0..n {
        sum += number::word32_in(stsz, 12 + 4 * (first + i));
    }
    sum
}

// The same, four at a time.
fn many_from(stsz: &[u8], first: usize, n: usize) -> usize
    requires { (common stsz.now ≡ 0) × (first + n ≤ 65536) × (n ≤ (length stsz.now - (12 + 4 * first)) / 4) }
    ensures { (result ≡ bytes_from stsz.now first n) × (result ≤ n * 4294967295) }
{
    let mut sum = 0;
    for i in 0..n / 4 {
        sum += four(stsz, 12 + 4 * (first + 4 * i));
    }
    sum + few_from(stsz, first + n / 4 * 4, n % 4)
}

// The bytes of n samples from the given one on, where their sizes are there.
pub fn bytes_in(stsz: &[u8], first: usize, n: usize) -> usize
    requires { Held stsz.now first n }
    ensures { (result ≡ bytes_from stsz.now first n) × (result ≤ n * 4294967295) }
{
    let one = number::word32(stsz, 4);
    if one != 0 {
        return n * one;
    }
    if n < 4 {
        return few_from(stsz, first, n);
    }
    many_from(stsz, first, n)
}

// How many of n sizes from the given one on lie inside.
fn inside(stsz: &[u8], first: usize, n: usize) -> usize
    requires { first + n ≤ 65536 }
    ensures { result ≡ min n ((length stsz.now - (12 + 4 * first)) / 4) }
{
    let from = 12 + 4 * first;
    if stsz.len() < from {
        return 0;
    }
    n.min((stsz.len() - from) / 4)
}

// The bytes of n samples from the given one on.
pub fn bytes_from(stsz: &[u8], first: usize, n: usize) -> usize
    requires { first + n ≤ 65536 }
    ensures { (result ≡ bytes_from stsz.now first n) × (result ≤ n * 4294967295) }
{
    if number::word32(stsz, 4) == 0 {
        return bytes_in(stsz, first, inside(stsz, first, n));
    }
    bytes_in(stsz, first, n)
}
