//! The program `chv`: it hands the words of the command line, standard input and standard output to the top call, and
//! ends with the exit code of its status.
#![tactic(auto)]

use chv_defs_base::Name;
use chv_io::{StdSink, StdSource};
use chv_store::MemDisk;
use chv_top::{Status, run_program};
use std::alloc::{AllocError, Global};
use std::process::ExitCode;
use std::rt::Env;
use std::{env, io};

fn main(rt: HostRuntime) -> ExitCode {
    let status = match words(&rt) {
        Ok(words) => {
            let mut input = StdSource::new(rt.reader());
            let mut out = StdSink::new(io::writer(&rt));
            let disks = no_disks(rt.alloc());
            run_program(rt.alloc(), words.as_slice(), &mut input, &mut out, disks).status
        }
        Err(_) => Status::Memory,
    };
    ExitCode::from(status.code())
}

// No disk stands by so far.
fn no_disks(alloc: Global) -> Vec<(Name, MemDisk)> {
    Vec::new(alloc)
}

// The words of the command line. Words that are no text are no words of the program.
fn words<R: Env + AllocGlobal>(rt: &R) -> Result<Vec<String>, AllocError> {
    match env::args(rt) {
        Ok(args) => args.skip(1).collect(rt.alloc()),
        Err(_) => Ok(Vec::new(rt.alloc())),
    }
}
