//! The program `tcs`: hands its words and the standard streams to the top call, and tells how that ended.
#![tactic(auto)]

use std::process::ExitCode;
use std::{env, io};
use tcs_io::{StdSink, StdSource};
use tcs_run::{Status, after_flush, run};

fn main(rt: HostRuntime) -> ExitCode {
    let status = serve(&rt);
    if status.code() > 1 {
        // Where standard error is closed the exit number still tells.
        let _ = eprintln!(rt; "tcs: {status}");
    }
    ExitCode::from(status.code())
}

/// Runs on the words, the input and the output of the process. Words that are no text name no command.
fn serve(rt: &HostRuntime) -> Status {
    let mut args = match env::args(rt) {
        Ok(args) => args,
        Err(fault) if fault.kind() == io::ErrorKind::OutOfMemory => return Status::OutOfMemory,
        Err(_) => return Status::BadWords,
    };
    args.next();
    let Ok(words) = args.collect::<Vec<String>>(rt.alloc()) else {
        return Status::OutOfMemory;
    };
    let Ok(mut input) = StdSource::new(rt.alloc(), rt.reader()) else {
        return Status::OutOfMemory;
    };
    let Ok(mut output) = StdSink::new(rt.alloc(), io::writer(rt)) else {
        return Status::OutOfMemory;
    };
    let status = run(rt.alloc(), &words, &mut input, &mut output);
    after_flush(status, &mut output)
}
