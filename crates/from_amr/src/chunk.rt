// The one chunk of a file: the codec of its frames, what is told of their run, and where it starts.
use frames::codec::Codec;
use frames::run::Run;

#[derive(Clone, Copy)]
pub struct Chunk {
    pub codec: Codec,
    pub run: Run,
    pub offset: usize,
}
