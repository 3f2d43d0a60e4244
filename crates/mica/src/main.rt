//! The program: the top call over standard input, standard output and UDP sockets of this machine.
#![tactic(auto)]

mod host;

use host::run_on_host;
use std::process::ExitCode;

fn main(rt: HostRuntime) -> ExitCode {
    run_on_host(&rt)
}
