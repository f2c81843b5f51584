// Where a program's text comes from: standard input, or a file.
use anyhow::anyhow;
use std::alloc::Global;
use std::io::Read;
use std::{fs, io};

// A closed standard input answers a read by this number.
const BAD_DESCRIPTOR: i32 = 9;

// All of standard input; nothing where it is closed.
pub fn standard_input(rt: &HostRuntime) -> io::Result<Vec<u8>> {
    let mut text = Vec::new(rt.alloc());
    match rt.stdin().read_to_end(&mut text) {
        Ok(_) => Ok(text),
        Err(e) if e.raw_os_error() == Some(BAD_DESCRIPTOR) => Ok(text),
        Err(e) => Err(e),
    }
}

// All of a file.
pub fn file(rt: &HostRuntime, heap: Global, name: &str) -> anyhow::Result<Vec<u8>> {
    match fs::read(rt, name) {
        Ok(text) => Ok(text),
        Err(e) => Err(anyhow!(format!(in heap; "{name}: {e}")?)),
    }
}
