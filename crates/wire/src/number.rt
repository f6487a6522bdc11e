// Big-endian numbers, read from a part and put into one.
ghost use Rattle.std.specs.Prelude.{◌≡◌, [], ◌∷◌, ◌+◌, ◌^◌, ◌≤◌, ◌<◌, length, get_or, ◌==◌};
ghost use Rattle.std.specs.List.{list_all};
ghost use Rattle.wire.specs.Clauses.{is_eq};
ghost use Rattle.wire.specs.Numbers.{bytes, word};
ghost use Rattle.wire.specs.Writing.{put};

fn wide(x: u8) -> usize
    ensures { (result ≡ x) × (result < 256) }
{
    x as usize
}

// The byte at a place, and 0 past the end.
pub fn byte(part: &[u8], at: usize) -> usize
    ensures { (result ≡ get_or part.now at 0) × (result < 256) }
{
    if at < part.len() {
        return wide(part[at]);
    }
    0
}

// The number in the W bytes at a place inside.
pub fn word_in<const W: usize>(part: &[u8], at: usize) -> usize
    requires { (W ≤ 8) × (at + W ≤ length part.now) }
    ensures { (result ≡ word W part.now at) × (result < 256 ^ W) }
{
    let mut n = 0;
    for i in 0..W {
        n = n * 256 + wide(part[at + i]);
    }
    n
}

// The number in the W bytes at any place, 0 where they don't all lie inside.
pub fn word<const W: usize>(part: &[u8], at: usize) -> usize
    requires { W ≤ 8 }
    ensures { (result ≡ word W part.now at) × (result < 256 ^ W) }
{
    if at <= part.len() && W <= part.len() - at {
        return word_in::<W>(part, at);
    }
    0
}

// The 16-bit number at a place inside.
pub fn word16_in(part: &[u8], at: usize) -> usize
    requires { at + 2 ≤ length part.now }
    ensures { (result ≡ word 2 part.now at) × (result < 2 ^ 16) }
{
    word_in::<2>(part, at)
}

// The 32-bit number at a place inside: by halves, since the compiler then turns four in a row at once.
pub fn word32_in(part: &[u8], at: usize) -> usize
    requires { at + 4 ≤ length part.now }
    ensures { (result ≡ word 4 part.now at) × (result < 2 ^ 32) }
{
    word_in::<2>(part, at) * 65536 + word_in::<2>(part, at + 2)
}

// The 64-bit number at a place inside.
pub fn word64_in(part: &[u8], at: usize) -> usize
    requires { at + 8 ≤ length part.now }
    ensures { result ≡ word 8 part.now at }
{
    word_in::<8>(part, at)
}

// The 16-bit number at any place, 0 where it doesn't lie inside.
pub fn word16(part: &[u8], at: usize) -> usize
    ensures { (result ≡ word 2 part.now at) × (result < 2 ^ 16) }
{
    word::<2>(part, at)
}

// The 24-bit number at any place, 0 where it doesn't lie inside.
pub fn word24(part: &[u8], at: usize) -> usize
    ensures { (result ≡ word 3 part.now at) × (result < 2 ^ 24) }
{
    word::<3>(part, at)
}

// The 32-bit number at any place, 0 where it doesn't lie inside.
pub fn word32(part: &[u8], at: usize) -> usize
    ensures { (result ≡ word 4 part.now at) × (result < 2 ^ 32) }
{
    word::<4>(part, at)
}

// Whether every byte of a part is 0.
fn all_zero(part: &[u8]) -> bool
    ensures { result ≡ list_all (λ b. b == 0) part.now }
{
    part.iter().all(|b| *b == 0)
}

// Whether the n bytes at a place are all 0, or don't lie inside.
pub fn zeros(part: &[u8], at: usize, n: usize) -> bool
    ensures { result ≡ is_eq (word n part.now at) 0 }
{
    if part.len() < at {
        return true;
    }
    if part.len() - at < n {
        return true;
    }
    all_zero(&part[at..at + n])
}

// Puts the last W bytes of a number at a place.
pub fn put<const W: usize>(out: &mut [u8], at: usize, n: usize)
    requires { at + W ≤ length out.old }
    ensures { out.new ≡ put out.old at (bytes W n) }
{
    let mut m = n;
    for i in (0..W).rev() {
        out[at + i] = (m % 256) as u8;
        m /= 256;
    }
}

// Puts the last 16 bits of a number at a place.
pub fn put16(out: &mut [u8], at: usize, n: usize)
    requires { at + 2 ≤ length out.old }
    ensures { out.new ≡ put out.old at (bytes 2 n) }
{
    put::<2>(out, at, n);
}

// Puts the last 32 bits of a number at a place.
pub fn put32(out: &mut [u8], at: usize, n: usize)
    requires { at + 4 ≤ length out.old }
    ensures { out.new ≡ put out.old at (bytes 4 n) }
{
    put::<4>(out, at, n);
}

// Puts a number of 64 bits at a place.
pub fn put64(out: &mut [u8], at: usize, n: usize)
    requires { at + 8 ≤ length out.old }
    ensures { out.new ≡ put out.old at (bytes 8 n) }
{
    put::<8>(out, at, n);
}
