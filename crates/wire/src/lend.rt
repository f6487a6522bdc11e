// Parts of a part, at any length.
ghost use Rattle.std.specs.Prelude.{◌≡◌, take, drop};

// The first n bytes, or all where there are fewer.
pub fn front(part: &[u8], n: usize) -> &[u8]
    ensures { result.now ≡ take n part.now }
{
    if n <= part.len() {
        return &part[0..n];
    }
    part
}

// All past the first n bytes.
pub fn rest(part: &[u8], n: usize) -> &[u8]
    ensures { result.now ≡ drop n part.now }
{
    if n <= part.len() {
        return &part[n..];
    }
    &part[0..0]
}
