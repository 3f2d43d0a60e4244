//! The program over standard input, standard output and the UDP sockets of this machine.
ghost use Rattle.std.specs.Prelude.{◌≡◌};
ghost use Rattle.std.specs.Process.{exit_status};
ghost use Rattle.mica_cmd.specs.declared.status.Status.{Status};
ghost use Rattle.mica_cmd.specs.Exit.{exit_number};

use host_outside::{StdSink, StdSource, UdpNet};
use mica_client::UdpLink;
use mica_cmd::run_program;
use outside::FreeGate;
use partition_table::Tables;
use std::net::Net as Sockets;
use std::process::ExitCode;
use std::rt::Env;
use std::sync::Wait;
use std::thread::Threads;
use std::{env, io};

/// The program as `main` runs it: with the words that it was started with.
pub fn run_on_host<R: Threads + Wait + Sync + AllocGlobal + Env + Input + Print + Sockets>(
    rt: &R,
) -> ExitCode
    ensures { (status : Status) × (exit_status result ≡ exit_number status) }
{
    let mut source = StdSource::new(rt.reader());
    let mut sink = StdSink::new(io::writer(rt));
    let mut net = UdpNet::new(rt);
    let mut tables = Tables::new();
    let mut link = UdpLink::new(rt);
    run_program(
        rt,
        rt.alloc(),
        env::args(rt),
        &mut source,
        &mut sink,
        &mut net,
        &FreeGate,
        &mut tables,
        &mut link,
    )
}
