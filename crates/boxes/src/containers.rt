// The containers, and only on the paths of the format.
#![tactic(auto, unfolding(crate::specs::Containers::parent, crate::specs::Containers::kind_in, wire::specs::Tests::if_eq))]

ghost use Rattle.std.specs.Prelude.{◌≡◌};
ghost use Rattle.boxes.specs.Containers.{parent as parent_of, kind_in};

// The file's kind; a container's is its code, and that of an opaque box 0.
pub const FILE: usize = 1;

// The file, `moov`, `trak`, `mdia`, `minf`, `stbl`.
pub const DEPTH: usize = 6;

// The longest file.
pub const LONGEST: usize = 1048576;

// The kind of container that a container of a code stands in.
pub fn parent(c: usize) -> usize
    ensures { result ≡ parent_of c }
{
    match c {
        codes::MOOV => FILE,
        codes::TRAK => codes::MOOV,
        codes::MDIA => codes::TRAK,
        codes::MINF => codes::MDIA,
        codes::STBL | codes::DINF => codes::MINF,
        _ => 0,
    }
}

// The kind of a box of a code that stands in a container of kind k.
pub fn kind_in(k: usize, c: usize) -> usize
    ensures { result ≡ kind_in k c }
{
    if parent(c) == k {
        return c;
    }
    0
}
