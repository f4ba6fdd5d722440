// The program: a file of commands is read, and each `check-synth` in it is answered.
#![tactic(auto)]

use std::io::ErrorKind;
use std::process::ExitCode;
use std::{env, mem};
use sy_io::{FileSource, StdSink};
use sygus_run::run;

fn main(rt: HostRuntime) -> ExitCode {
    let words = match env::args(&rt) {
        Ok(words) => words,
        Err(error) if error.kind() == ErrorKind::OutOfMemory => return ExitCode::from(6),
        Err(_) => return ExitCode::from(3),
    };
    let Ok(words) = words.collect::<Vec<String>>(rt.alloc()) else {
        return ExitCode::from(6);
    };
    let mut source = FileSource::new(&rt);
    let mut out = StdSink::out(&rt);
    let mut err = StdSink::err(&rt);
    let ended = run(
        rt.alloc(),
        words.as_slice(),
        &mut source,
        &mut out,
        &mut err,
    );
    let status = ended.status;
    // the process ends here, so the answers aren't freed one by one
    mem::forget(ended);
    ExitCode::from(status)
}
