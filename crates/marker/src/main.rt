// The marker's program: the file `plan` and standard input in, standard output out.
#![tactic(auto)]

use lines::mark;
use std::io::{Read, Write};
use std::{fs, io};

// A file that cannot be opened reads as empty.
fn file_bytes(rt: &HostRuntime) -> Vec<u8> {
    fs::read(rt, "plan").unwrap_or_else(|_| Vec::new(rt.alloc()))
}

fn main(rt: HostRuntime) -> io::Result<()> {
    let file = file_bytes(&rt);
    let mut input = Vec::new(rt.alloc());
    rt.stdin().read_to_end(&mut input)?;
    let printed = mark(rt.alloc(), file.as_slice(), input.as_slice())?;
    rt.stdout().write_all(printed.as_bytes())
}
