// Reads a file on standard input and writes its listing to standard output. What breaks the reading or the writing is said on standard error, and
// ends the program with status 1.
#![tactic(auto)]

use std::io;
use std::io::{Read, Write};
use std::process::ExitCode;

// More than the longest file has, so that an input that does not fit is known to be too long.
const MOST_READ: u64 = 65536;

// The system's words for an error, without its number.
fn words_of(told: &str) -> &str {
    match told.split_once(" (os error ") {
        Some((words, _)) => words,
        None => told,
    }
}

// Says which stream broke and why.
fn tell(rt: &HostRuntime, stream: &str, error: io::Error) -> io::Result<()> {
    let told = format!(in rt.alloc(); "{error}")?;
    let words = words_of(told.as_str());
    eprintln!(rt; "{stream}: {words}")
}

fn main(rt: HostRuntime) -> io::Result<ExitCode> {
    let mut file = Vec::new(rt.alloc());
    if let Err(error) = rt.stdin().take(MOST_READ).read_to_end(&mut file) {
        tell(&rt, "standard input", error)?;
        return Ok(ExitCode::FAILURE);
    }
    let mut text = [0u8; listing::MOST_TEXT];
    let end = listing::list(&file, &mut text);
    if let Err(error) = rt.stdout().write_all(&text[..end]) {
        tell(&rt, "standard output", error)?;
        return Ok(ExitCode::FAILURE);
    }
    Ok(ExitCode::SUCCESS)
}
