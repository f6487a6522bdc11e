// The word `modes`: the first sample of a track whose frames aren't as its description says.
use tidy_words::tell;
use tidy_words::tell::{Failure, Outcome, To};

// Why a sample fails, by the numbers of the library.
const BAD_FRAME: u64 = 1;

const WRONG_COUNT: u64 = 2;

fn words_of(why: u64) -> &'static str {
    match why {
        BAD_FRAME => "a bad frame",
        WRONG_COUNT => "a wrong count of frames",
        _ => "a frame of a mode that its description doesn't allow",
    }
}

// A sample that fails is an answer, and no refusal of the library; the status is that of a refusal, so that a script can go by it.
fn fails(rt: HostRuntime, number: u64, why: u64) -> Outcome {
    let why = words_of(why);
    tell::print_line(rt, format_args!("sample {number}: {why}\n"))?;
    Err(Failure::Refused)
}

pub fn run(rt: HostRuntime, file: &[u8], track: usize) -> Outcome {
    let mut found = [0u64; 2];
    let n = modes::modes(file, track, &mut found).map_err(|refusal| tell::refused(rt, refusal))?;
    if n == 0 {
        return tell::print(rt, To::Output, b"every sample passes\n");
    }
    fails(rt, found[0], found[1])
}
