// An answer of a call for other languages as one number, packed the same way for every call: kind, refusal number, end
// and steps; a price has the cents behind its kind.
#![tactic(auto)]

ghost use Rattle.std.specs.Prelude.{◌≡◌, ◌<◌};
ghost use Rattle.packing.specs.Answer.{packed, refusal, written_number, ShortFile, day_number};
ghost use Rattle.packing.specs.Answer.{peaks_by, cost, priced_number, SmallPrice, time_number};

use job::Job;
use job::refusal::Refusal;
use timeline::Day;

// The kinds of answers.
pub const DONE: u8 = 0;

const REFUSED: u8 = 1;

const UNREACHABLE: u8 = 2;

// What the parts behind the kind are multiplied by: the refusal's number begins at bit 8, the end at bit 16, the steps
// at bit 48.
const NUMBER: u64 = 256;

const END: u64 = 65_536;

const STEPS: u64 = 281_474_976_710_656;

// An answer in one number: kind in bits 0 to 7, refusal in 8 to 15, end in 16 to 47, steps in 48 to 63.
pub fn pack(kind: u8, refusal: u8, end: u32, steps: u16) -> u64
    ensures { result ≡ packed kind refusal end steps }
{
    kind as u64 + NUMBER * refusal as u64 + END * end as u64 + STEPS * steps as u64
}

// A refusal by its number.
pub fn refused(why: Refusal) -> u64
    ensures { result ≡ refusal why }
{
    pack(REFUSED, u8::from(why), 0, 0)
}

// The writer's answer: the file's length.
pub fn written(answer: Result<usize, Refusal>) -> u64
    requires { ShortFile answer }
    ensures { result ≡ written_number answer }
{
    match answer {
        Ok(length) => pack(DONE, 0, length as u32, 0),
        Err(why) => refused(why),
    }
}

// A day with so many steps told: the plan's end, or why there is none.
pub fn day_told(day: Result<Day, Refusal>, steps: u16) -> u64
    ensures { result ≡ day_number day steps }
{
    match day {
        Ok(day) => pack(DONE, 0, day.end, steps),
        Err(why) => refused(why),
    }
}

// Puts the peaks of a day into the array, and leaves it as it was where there is no day.
pub fn put_peaks(peaks: &mut [u32; Job::POOLS], day: Result<Day, Refusal>)
    ensures { peaks.new ≡ peaks_by day peaks.old }
{
    if let Ok(day) = day {
        let told = day.peaks;
        *peaks = told;
    }
}

// A price: the cents behind the kind, in bits 8 to 63.
fn pack_price(cents: u64) -> u64
    requires { cents < 72057594037927936 }
    ensures { result ≡ cost cents }
{
    DONE as u64 + NUMBER * cents
}

// What a plan costs, or why it has no price.
pub fn price_told(answer: Result<u64, Refusal>) -> u64
    requires { SmallPrice answer }
    ensures { result ≡ priced_number answer }
{
    match answer {
        Ok(cents) => pack_price(cents),
        Err(why) => refused(why),
    }
}

// A time: the minute, or the kind for unreachable.
fn minute_told(time: Option<u32>) -> u64
    ensures { result ≡ time_number (Ok time) }
{
    match time {
        Some(minute) => pack(DONE, 0, minute, 0),
        None => pack(UNREACHABLE, 0, 0, 0),
    }
}

// An earliest time, or why there is none to tell.
pub fn told(answer: Result<Option<u32>, Refusal>) -> u64
    ensures { result ≡ time_number answer }
{
    match answer {
        Ok(time) => minute_told(time),
        Err(why) => refused(why),
    }
}
