//! The program `bsss_cover`: gives its standard streams to the top call, and ends with the code of
//! the status.
#![tactic(auto)]

use cover_cli::run;
use port_io::{StdSink, StdSource};
use std::process::ExitCode;

fn main(rt: HostRuntime) -> ExitCode {
    let mut source = StdSource::new(rt.stdin());
    let mut sink = StdSink::new(rt.stdout());
    let status = run(rt.alloc(), &mut source, &mut sink);
    ExitCode::from(status.code())
}
