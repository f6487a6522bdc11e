// The brands that an `ftyp` lists.
ghost use Rattle.std.specs.Prelude.{◌≡◌};
ghost use Rattle.release.specs.Compatible.{brand_listed};

use wire::number;

// Whether brand c is listed. The major brand and the minor version come before the list.
pub fn listed(ftyp: &[u8], c: usize) -> bool
    ensures { result ≡ brand_listed c ftyp.now }
{
    if ftyp.len() < 8 {
        return false;
    }
    for i in 0..(ftyp.len() - 8) / 4 {
        if number::word32_in(ftyp, 8 + 4 * i) == c {
            return true;
        }
    }
    false
}
