// Runs a run file and prints its output: the file that the one argument names, or standard input without one. All that matters
// is proved in `runfile`; here bytes are only read and written.

#![tactic(auto)]

ghost use Rattle.std.specs.Prelude.{◌≤◌, length};

use std::env::FillError;
use std::fmt::InlineText;
use std::io::Read;
use std::rt::{Env, Files};
use std::str::from_utf8;
use std::{fs, io};

// The most bytes of a good file: three counts, 32,768 bytes of memory, 512 steps of 20, 16,384 card bytes.
const LONGEST: usize = 59404;

// The most bytes of memory.
const MEMORY: usize = 32768;

// The most bytes of output: the count and 512 lines.
const TEXT: usize = 9744;

// Says on standard error why the system refused what is named, in the C library's words without the number.
fn fail(rt: &impl Eprint, name: &str, error: &io::Error) -> io::Result<()> {
    let told = InlineText::<256>::of(error);
    let text = told.as_str();
    let why = text
        .split_once(" (os error ")
        .map_or(text, |(words, _)| words);
    eprint!(rt; "{name}: {why}\n")
}

// Runs the bytes of a file. One that is too long is a bad file; a word on standard error says why.
fn ride<R: Print + Eprint>(rt: &R, file: &[u8]) -> io::Result<()> {
    let mut memory = [0; MEMORY];
    let mut block = [0; 512];
    let mut space = [0; 512];
    let mut lines = [0; TEXT];
    let told = if LONGEST < file.len() {
        rt.eprint("run: the file is longer than any run file, 59404 bytes\n")
    } else {
        Ok(())
    };
    let n = runfile::run::run(file, &mut memory, &mut block, &mut space, &mut lines);
    rt.write_all(&lines[..n])?;
    told
}

// Reads to the end, until the buffer is full or until a read fails: how many bytes stand at its start, and the error.
fn read_full(from: &mut impl Read, buf: &mut [u8]) -> (usize, io::Result<()>)
    ensures { result.0 ≤ length buf.new }
{
    let mut done = 0;
    while done < buf.len() {
        match from.read(&mut buf[done..]) {
            Ok(0) => break,
            Ok(n) => done += n,
            Err(e) => return (done, Err(e)),
        }
    }
    (done, Ok(()))
}

// Reads to the end or to more than a file may have, and runs what came. A read that fails ends the file, and then the program.
fn ride_from<R: Print + Eprint>(rt: &R, from: &mut impl Read) -> io::Result<()> {
    let mut bytes: [u8; 65536] = [0; 65536];
    let (n, ended) = read_full(from, &mut bytes);
    ride(rt, &bytes[..n])?;
    ended
}

fn ride_named<R: Files + Print + Eprint>(rt: &R, name: &str) -> io::Result<()> {
    let mut file = match fs::open(rt, name) {
        Ok(file) => file,
        Err(e) => return fail(rt, name, &e),
    };
    // a folder opens as a file does; that it cannot be read shows at no byte
    match file.read(&mut []) {
        Ok(_) => ride_from(rt, &mut file),
        Err(e) => fail(rt, name, &e),
    }
}

// Is there an argument of this number? 0 is the program's own name.
fn has_argument(rt: &impl Env, i: usize) -> bool {
    !matches!(rt.arg(i, &mut []), Err(FillError::NotPresent))
}

fn main(rt: HostRuntime) -> io::Result<()> {
    if !has_argument(&rt, 1) {
        return ride_from(&rt, &mut rt.reader());
    }
    if has_argument(&rt, 2) {
        return rt.eprint("run: one file at a time: run FILE, or run < FILE\n");
    }
    let mut space: [u8; 4096] = [0; 4096];
    let Ok(n) = rt.arg(1, &mut space) else {
        return rt.eprint("run: the name of the file: File name too long\n");
    };
    match from_utf8(&space[..n]) {
        Ok(name) => ride_named(&rt, name),
        Err(_) => rt.eprint("run: the name of the file: no UTF-8 text\n"),
    }
}
