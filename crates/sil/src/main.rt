//! The program: hands the words of a command line, standard input and standard output to the command, and ends with its status.
//! It knows of no mode and no text: what is answered is the command's.
#![tactic(auto)]

mod sil_program;

use crate::sil_program::run;
use sil_io::{ReadSource, WriteSink};
use std::process::ExitCode;
use std::{env, io};

fn main(rt: HostRuntime) -> ExitCode {
    let mut source = ReadSource::new(rt.reader());
    let mut out = WriteSink::new(io::writer(&rt));
    ExitCode::from(run(rt.alloc(), env::args(&rt), &mut source, &mut out))
}
