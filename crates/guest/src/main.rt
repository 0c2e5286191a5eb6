//! The program `guest`: runs a guest whose files its words name, and prints what came of it.
#![tactic(auto)]

ghost use Rattle.std.specs.Prelude.{◌≡◌, [], length, All, IfOk};

use guest_base::limits::MAX_CPUS;
use guest_io::{RealFiles, RealSink};
use guest_run::top;
use page_module::{MemPort, Port};
use std::alloc::{AllocError, Global};
use std::process::ExitCode;
use std::sync::Wait;
use std::thread::Threads;
use std::{env, io};

/// The status where memory runs out.
const NO_MEMORY: u8 = 6;

/// The words after the program's name. Where one isn't text there are none, and no grammar has no words.
fn words_of(rt: HostRuntime) -> Result<Vec<String>, AllocError> {
    match env::args(&rt) {
        Ok(args) => args.skip(1).collect(rt.alloc()),
        Err(e) if e.kind() == io::ErrorKind::OutOfMemory => Err(AllocError),
        Err(_) => Ok(Vec::new(rt.alloc())),
    }
}

/// A port that never fails for each processor that a guest can have.
fn make_ports(alloc: Global) -> Result<Vec<MemPort>, AllocError>
    ensures count { IfOk result (λ ports. length ports.items ≡ 64) }
    ensures unmade { IfOk result
        (λ ports. All (λ port. ⟦<MemPort as Port>⟧.made port ≡ []) ports.items) }
{
    let mut ports = Vec::new(alloc);
    for cpu in 0..MAX_CPUS {
        ports.push(MemPort::new(alloc, Vec::new(alloc)))?;
    }
    Ok(ports)
}

/// Does what the words say, with threads from the handle where they ask for them, and tells the status.
fn run<R: Threads + Wait + Sync>(rt: HostRuntime, handle: &R) -> Result<u8, AllocError> {
    let alloc = rt.alloc();
    let words = words_of(rt)?;
    let mut ports = make_ports(alloc)?;
    let mut files = RealFiles::new(alloc, rt);
    let mut out = RealSink::new(rt);
    let ended = top(
        handle,
        alloc,
        words.as_slice(),
        &mut files,
        &mut out,
        &mut ports,
    );
    Ok(ended.status)
}

fn main(rt: HostRuntime) -> ExitCode {
    ExitCode::from(run(rt, &rt).unwrap_or(NO_MEMORY))
}
