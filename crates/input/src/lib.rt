// What the programs are given: files, by name or already open, and decimal numbers. What is not to be had gets a line
// on standard error.
#![tactic(auto)]

mod decimal; // numbers in decimal digits

ghost use Rattle.std.specs.Prelude.{IfOk, IfSome, ◌<◌, ◌≤◌, length, take};
ghost use Rattle.std.specs.Io.KnownBytes.{Consumes, IsAtEnd};
ghost use Rattle.input.specs.Loaded.{IsPrefixLen};

use decimal::decimal;
use jobfile::Layout;
use std::env::{Env, FillError};
use std::fs::File;
use std::io;
use std::io::Read;
use std::rt::Files;
use timeline::Plan;

// Room for a job file, and for a plan: one byte more than the longest, since what fills it is too long.
pub const JOB: usize = Layout::FILE + 1;

pub const PLAN: usize = Plan::BYTES + 1;

// Room for an argument: the longest path there is, and more digits than any number has that is asked for.
const ARGUMENT: usize = 4096;

// Writes a line to standard error. Where that fails, there is nowhere else to say so.
pub fn tell(rt: &impl Eprint, line: &str) {
    let _ = rt.eprintln(line);
}

// Writes a line to standard error: what failed, a colon and the reason. Where that fails, there is nowhere else to say so.
pub fn tell_why(rt: &(impl Eprint + Alloc), what: &str, why: io::Error) {
    let _ = line_of(rt, what, why);
}

// The text of an error without the number that the system gives it.
fn without_number(text: &str) -> &str {
    text.split_once(" (os error ")
        .map_or(text, |(reason, _)| reason)
}

fn line_of(rt: &(impl Eprint + Alloc), what: &str, why: io::Error) -> io::Result<()> {
    let text = format!(in rt.alloc(); "{why}")?;
    let reason = without_number(&text);
    eprintln!(rt; "{what}: {reason}")
}

// Reads from an open file to the front of the buffer, until the file ends or the buffer is full, and returns how many
// bytes have come.
pub fn load<R: Read>(file: &mut R, buffer: &mut [u8]) -> io::Result<usize>
    ensures bound { IfOk result (λ n. IsPrefixLen n buffer.new) }
    ensures bytes { IfOk result (λ n. Consumes (R.remaining file.old) (R.remaining file.new) (take n buffer.new)) }
    ensures whole { IfOk result (λ n. n < length buffer.new → IsAtEnd (R.remaining file.new)) }
{
    let mut length = 0;
    while length < buffer.len() {
        let n = file.read(&mut buffer[length..])?;
        if n == 0 {
            break;
        }
        length += n;
    }
    Ok(length)
}

// How many arguments there are, the name of the program among them.
pub fn argument_count(rt: &impl Env) -> usize {
    for i in 0..usize::MAX {
        if let Err(FillError::NotPresent) = rt.arg(i, &mut []) {
            return i;
        }
    }
    usize::MAX
}

// The file name that argument i is. A name has to be UTF-8.
fn file_name<'a>(rt: &impl Env, i: usize, buffer: &'a mut [u8]) -> io::Result<&'a str> {
    match rt.arg(i, buffer) {
        Ok(length) => str::from_utf8(&buffer[..length]).map_err(|_| io::Error::other(
            "Invalid or incomplete multibyte or wide character",
        )),
        Err(FillError::TooLong) => Err(io::Error::other("File name too long")),
        Err(FillError::NotPresent) => Err(io::Error::other("Invalid argument")),
    }
}

fn load_file(rt: &impl Files, name: &str, buffer: &mut [u8]) -> io::Result<usize>
    ensures { IfOk result (λ n. IsPrefixLen n buffer.new) }
{
    let mut file = File::open(rt, name)?;
    load(&mut file, buffer)
}

// Reads the file that argument i names to the front of the buffer, and returns how many bytes have come; says why on
// standard error where that fails.
pub fn load_named(
    rt: &(impl Env + Files + Eprint + Alloc),
    i: usize,
    buffer: &mut [u8],
) -> Option<usize>
    ensures { IfSome result (λ n. IsPrefixLen n buffer.new) }
{
    let mut bytes = [0u8; ARGUMENT];
    let name = match file_name(rt, i, &mut bytes) {
        Ok(name) => name,
        Err(why) => {
            tell_why(rt, "a file name", why);
            return None;
        }
    };
    match load_file(rt, name, buffer) {
        Ok(length) => Some(length),
        Err(why) => {
            tell_why(rt, name, why);
            None
        }
    }
}

// The decimal number that argument i is; where it is none, or over the most, the message goes to standard error.
// An argument that is too long for the buffer is no number, like an empty one.
pub fn number_in(rt: &(impl Env + Eprint), i: usize, most: u64, message: &str) -> Option<u64>
    ensures { IfSome result (λ n. n ≤ most) }
{
    let mut text = [0u8; ARGUMENT];
    let length = rt.arg(i, &mut text).unwrap_or(0);
    let number = decimal(&text[..length], most);
    if number.is_none() {
        tell(rt, message);
    }
    number
}
