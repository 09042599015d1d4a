//! `netd_run`: reads a script from standard input, and answers it on standard output, over a simulated kernel.
#![tactic(auto)]

use net_io::{StdSink, StdSource};
use netd_top::run;
use rule_index::IndexedKernel;
use std::alloc::{AllocError, Global};
use std::env::Args;
use std::io::ErrorKind;
use std::process::ExitCode;
use std::{env, io};

/// The exit status where the program is out of memory.
const NO_MEMORY: u8 = 6;

/// The words after the program's name. Where one of them isn't UTF-8 they are in no form, as no words are: then none are given.
fn words_in(alloc: Global, args: io::Result<Args>) -> Result<Vec<String>, AllocError> {
    match args {
        Ok(args) => args.skip(1).collect(alloc),
        Err(error) => match error.kind() {
            ErrorKind::OutOfMemory => Err(AllocError),
            _ => Ok(Vec::new(alloc)),
        },
    }
}

fn main(rt: HostRuntime) -> ExitCode {
    let alloc = rt.alloc();
    let Ok(words) = words_in(alloc, env::args(&rt)) else {
        return ExitCode::from(NO_MEMORY);
    };
    let Ok(mut kernel) = IndexedKernel::new(alloc, Vec::new(alloc), Vec::new(alloc)) else {
        return ExitCode::from(NO_MEMORY);
    };
    let mut source = StdSource::new(rt.reader());
    let mut sink = StdSink::new(io::writer(&rt));
    let status = run(alloc, &words, &mut source, &mut sink, &mut kernel);
    ExitCode::from(status.number())
}
