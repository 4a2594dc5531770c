//! The program over standard input and output, and the folder `state`.
#![tactic(auto)]

use disk_folder::FolderDisk;
use io_edge::{StdSink, StdSource};
use state_cli::{Status, run};
use std::alloc::{AllocError, Global};
use std::io::ErrorKind;
use std::process::ExitCode;
use std::rt::Env;
use std::{env, io};

// Where the disk is, from the folder that the program is run in.
const FOLDER: &str = "state";

// The words after the program's name. Where one is no text, a word that no command line has.
fn words(rt: &(impl Env + AllocGlobal)) -> Result<Vec<String>, AllocError> {
    match env::args(rt) {
        Ok(args) => args.skip(1).collect(rt.alloc()),
        Err(error) if error.kind() == ErrorKind::OutOfMemory => Err(AllocError),
        Err(_) => {
            let mut words = Vec::new(rt.alloc());
            words.push(String::new(rt.alloc()))?;
            Ok(words)
        }
    }
}

// The words, and the path of the disk.
fn given(rt: &(impl Env + AllocGlobal)) -> Result<(Vec<String>, String), AllocError> {
    Ok((words(rt)?, String::from_str(rt.alloc(), FOLDER)?))
}

fn main(rt: HostRuntime) -> ExitCode {
    let status = match given(&rt) {
        Ok((words, path)) => {
            let mut source = StdSource::new(rt.reader());
            let mut sink = StdSink::new(io::writer(&rt));
            let mut disk = FolderDisk::at(&rt, path);
            run(rt.alloc(), &words, &mut source, &mut sink, &mut disk)
        }
        Err(_) => Status::Memory,
    };
    ExitCode::from(status.code())
}
