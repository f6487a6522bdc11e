// The words `list` and `outline`: the listing of a file, and its boxes.
use tidy_files::input;
use tidy_words::tell;
use tidy_words::tell::{Failure, Outcome, To};
use wire::lend;

// The longest file that is listed or outlined.
const LONGEST: usize = 65536;

// A refused file has a listing too.
fn judged(rt: HostRuntime, file: &[u8]) -> Outcome {
    judge::judge(file).map_err(|refusal| tell::refused(rt, refusal))
}

fn show(rt: HostRuntime, text: &[u8], file: &[u8]) -> Outcome {
    tell::print(rt, To::Output, text)?;
    judged(rt, file)
}

fn too_long(rt: HostRuntime) -> Outcome {
    tell::print(rt, To::Output, b"too long here\n")?;
    Err(Failure::Refused)
}

pub fn run(rt: HostRuntime, file: &[u8]) -> Outcome {
    if LONGEST < file.len() {
        return too_long(rt);
    }
    let mut text = [0u8; listing::ROOM];
    let n = listing::listing(file, &mut text).map_err(|refusal| tell::refused(rt, refusal))?;
    show(rt, lend::front(&text, n), file)
}

// A file isn't judged for its outline. The text has at most 8 bytes for each of the file's, and 13 more (`outline_room`), so the room suffices.
pub fn outline(rt: HostRuntime, file: &[u8]) -> Outcome {
    if LONGEST < file.len() {
        return too_long(rt);
    }
    let mut text = input::room();
    let n = outline::outline(file, &mut text).map_err(|refusal| tell::refused(rt, refusal))?;
    tell::print(rt, To::Output, lend::front(&text, n))
}
