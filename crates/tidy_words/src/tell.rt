// What is said on standard output and standard error, and how it went.
use crate::line;
use rule::Refusal;
use std::fmt::Display;
use std::io::Error;
use std::process::ExitCode;
use wire::lend;

// Why a word isn't done. It is told already.
#[derive(Clone, Copy, PartialEq, Eq, Debug)]
pub enum Failure {
    Refused,
    // Wrong use, input or output.
    Failed,
}

pub type Outcome = Result<(), Failure>;

impl From<Failure> for ExitCode {
    fn from(failure: Failure) -> ExitCode {
        match failure {
            Failure::Refused => ExitCode::from(1),
            Failure::Failed => ExitCode::from(2),
        }
    }
}

// Where a text goes: standard output, or standard error.
#[derive(Clone, Copy)]
pub enum To {
    Output,
    Errors,
}

// Words on standard error. Where that fails, there is nowhere to say so.
pub fn say(rt: HostRuntime, words: &[u8]) {
    let _ = rt.stderr().write_all(words);
}

// A refusal of the library, in words.
pub fn refused(rt: HostRuntime, refusal: Refusal) -> Failure {
    let mut line = [0u8; 512];
    let n = refusal_words::put_refusal(&mut line, 0, refusal.number, refusal.place);
    say(rt, lend::front(&line, n));
    Failure::Refused
}

// Words, and what they are about.
pub fn wrong(rt: HostRuntime, words: &str, what: &[u8]) -> Failure {
    say(rt, words.as_bytes());
    say(rt, what);
    say(rt, b"\n");
    Failure::Failed
}

// The system's own words for an error: std's, less the number that they end in.
fn words_of(text: &str) -> &str {
    text.split_once(" (os error ")
        .map_or(text, |(words, _)| words)
}

// What the system says of a call that failed.
pub fn failed(rt: HostRuntime, what: &[u8], error: Error) -> Failure {
    say(rt, what);
    match error.to_string(rt.alloc()) {
        Ok(text) => wrong(rt, ": ", words_of(text.as_str()).as_bytes()),
        Err(_) => wrong(rt, ": out of memory", b""),
    }
}

// Writes to standard output, or to standard error, and answers how it went.
pub fn print(rt: HostRuntime, to: To, text: &[u8]) -> Outcome {
    let written = match to {
        To::Output => rt.stdout().write_all(text),
        To::Errors => rt.stderr().write_all(text),
    };
    written.map_err(|error| failed(rt, b"standard output", error))
}

// Prints a line on standard output.
pub fn print_line<D: Display + Drop>(rt: HostRuntime, text: D) -> Outcome {
    print(rt, To::Output, line::of(text).as_str().as_bytes())
}
