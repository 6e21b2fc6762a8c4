//! The program `jl`: the standard streams, the words of the command line, and the status.
#![tactic(auto)]

use jl_io::{NoShelf, StdPort};
use jl_model::{NoMemory, Text};
use jl_top::run;
use std::alloc::Global;
use std::env;
use std::io::ErrorKind;
use std::process::ExitCode;

/// The status where memory runs out.
const NO_MEMORY: u8 = 5;

fn main(rt: HostRuntime) -> ExitCode {
    let alloc = rt.alloc();
    let mut shelf = NoShelf::new();
    let Ok(mut port) = StdPort::new(&rt) else {
        return ExitCode::from(NO_MEMORY);
    };
    let Ok(words) = words_of(&rt, alloc) else {
        return ExitCode::from(NO_MEMORY);
    };
    ExitCode::from(run(alloc, words.as_slice(), &mut port, &mut shelf).status)
}

/// The words after the program's name. Where one of them isn't UTF-8 there are none: no command
/// has such a word.
fn words_of(rt: &HostRuntime, alloc: Global) -> Result<Vec<Text>, NoMemory> {
    let mut words = Vec::new(alloc);
    let args = match env::args(rt) {
        Ok(args) => args,
        Err(failed) if failed.kind() == ErrorKind::OutOfMemory => return Err(NoMemory),
        Err(_) => return Ok(words),
    };
    for arg in args.skip(1) {
        let word = Text::from_bytes(alloc, arg.as_bytes())?;
        if words.push(word).is_err() {
            return Err(NoMemory);
        }
    }
    Ok(words)
}
