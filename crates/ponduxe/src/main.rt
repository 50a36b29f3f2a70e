//! The program: its words are a command over the files of the system, which writes to the standard output and ends with
//! the number of its status.
#![tactic(auto)]

use mon_main::{Status, Unheld, host};
use mon_outside::{FileStore, StdoutSink};
use std::alloc::AllocError;
use std::env;
use std::io::ErrorKind;
use std::process::ExitCode;
use std::rt::Env;

fn main(rt: HostRuntime) -> ExitCode {
    let status = match words(&rt) {
        Ok(words) => {
            let mut store = FileStore::new(&rt);
            let mut out = StdoutSink::new(&rt);
            host(
                &rt,
                rt.alloc(),
                words.as_slice(),
                &mut store,
                &mut out,
                &Unheld,
            )
        }
        Err(AllocError) => Status::Memory,
    };
    ExitCode::from(status.code())
}

/// The words behind the program's name; none where a word is not UTF-8, so that they are no command.
fn words(rt: &(impl Env + AllocGlobal)) -> Result<Vec<String>, AllocError> {
    match env::args(rt) {
        Ok(all) => all.skip(1).collect(rt.alloc()),
        Err(e) if e.kind() == ErrorKind::OutOfMemory => Err(AllocError),
        Err(_) => Ok(Vec::new(rt.alloc())),
    }
}
