// What the test programs print: headings, the beginnings of a case's line, totals.
#![tactic(auto)]

use std::convert::AsSlice;
use std::io;

// The line above the cases that belong to it. The text is any bytes.
pub fn heading(rt: &impl Print, sentence: impl AsSlice<u8> + Drop) -> io::Result<()> {
    rt.write_all(sentence.as_slice())?;
    println!(rt)
}

// The beginning of a line: the name of a case and a colon.
pub fn name(rt: &impl Print, case: impl AsSlice<u8> + Drop) -> io::Result<()> {
    print!(rt; "  ")?;
    rt.write_all(case.as_slice())?;
    print!(rt; ": ")
}

// A count, a sum or a seed.
pub fn total(rt: &impl Print, of: impl AsSlice<u8> + Drop, n: u64) -> io::Result<()> {
    name(rt, of)?;
    println!(rt; "{n}")
}
