// Runs the records in the file `records`, which tests/records makes from the tables in tests/tables: one call a record.
// Prints a line for each, its title and the answer, under headings with the document's sentence.
#![tactic(auto)]

mod call; // the calls by their letters
mod calls; // their answers
mod days; // days whose every step is told
mod lending; // the slices that are lent
mod peaks; // the peaks of a day
mod pools; // two jobs pooled to one
mod rates; // the rates of a price
mod replans; // begun days, planned anew
mod true_days; // days that have run

use lending::rest;
use lent::front;
use std::fs::File;
use std::io;
use std::io::Read;

// The bytes of a record's head, and room for the longest body.
const HEAD: usize = 16;

const BODY: usize = 13_000;

// The head of a record: the letter of its call, the lengths of its title, its file and its body, and the numbers that
// the call is given. The body is the title, the file and, behind them, a plan, before which the rates of a price, the
// minute of a begun day, the true lengths of a day or the first plan of a join stand; a place of the list; or two more
// files. The length of the first of two plans or files stands before it.
#[derive(Clone, Copy)]
pub struct Record {
    pub letter: u8,
    pub title: usize,
    pub file: usize,
    pub body: usize,
    pub room: usize, // the length of the lent slice
    pub set: u64,
}

fn record_in(bytes: &[u8; HEAD]) -> Record {
    Record {
        letter: bytes[0],
        title: encoding::read_number(bytes, 1, 1) as usize,
        file: encoding::read_number(bytes, 2, 2) as usize,
        body: encoding::read_number(bytes, 4, 2) as usize,
        room: encoding::read_number(bytes, 6, 2) as usize,
        set: encoding::read_number(bytes, 8, 8),
    }
}

// Reads so many bytes to the front of the buffer. False where the buffer or the file has fewer.
fn load(file: &mut impl Read, buffer: &mut [u8], length: usize) -> bool {
    if buffer.len() < length {
        return false;
    }
    file.read_exact(&mut buffer[0..length]).is_ok()
}

// The line of a record, or its title alone where that is a heading.
fn print(rt: &impl Print, record: Record, title: &[u8], given: &[u8]) -> io::Result<()> {
    if record.letter == b'h' {
        rt.write_all(title)?;
        return println!(rt; "");
    }
    print!(rt; "  ")?;
    rt.write_all(title)?;
    print!(rt; ": ")?;
    calls::answer(
        rt,
        record,
        front(given, record.file),
        rest(given, record.file),
    )?;
    println!(rt; "")
}

// The next record. False where the file ends.
fn run(rt: &impl Print, file: &mut impl Read) -> io::Result<bool> {
    let mut head = [0u8; HEAD];
    if !load(file, &mut head, HEAD) {
        return Ok(false);
    }
    run_body(rt, file, record_in(&head))
}

// The record with this head.
fn run_body(rt: &impl Print, file: &mut impl Read, record: Record) -> io::Result<bool> {
    let mut body = [0u8; BODY];
    if !load(file, &mut body, record.body) {
        return Ok(false);
    }
    let whole = front(&body, record.body);
    print(
        rt,
        record,
        front(whole, record.title),
        rest(whole, record.title),
    )?;
    Ok(true)
}

// So many records, or fewer where the file ends.
fn run_all(rt: &impl Print, file: &mut impl Read, most: u16) -> io::Result<()> {
    for _ in 0..most {
        if !run(rt, file)? {
            break;
        }
    }
    Ok(())
}

fn main(rt: HostRuntime) -> io::Result<()> {
    match File::open(&rt, "records") {
        Ok(mut file) => run_all(&rt, &mut file, u16::MAX),
        Err(why) => {
            input::tell_why(&rt, "records", why);
            Ok(())
        }
    }
}
