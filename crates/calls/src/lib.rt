// The calls for other languages: a job crosses as the bytes of its file, and each call answers one number (packing). A
// file that is refused is answered before anything else is looked at.
#![tactic(auto)]

ghost use Rattle.std.specs.Prelude.{◌≡◌};
ghost use Rattle.calls.specs.Calls.{read_answer, check_answer, peaks_by_check, rewrite_answer, left_by_rewrite};
ghost use Rattle.calls.specs.Calls.{price_answer, rates_in, true_day_answer, peaks_by_true_day};
ghost use Rattle.calls.specs.Calls.{joined_answer, left_by_joining, peaks_by_joining};
ghost use Rattle.calls.specs.Calls.{EarliestAnswers, PlanAnswers, ListAnswers, HalvesAnswers, ReplanAnswers};
ghost use Rattle.calls.specs.Calls.{pool_answer, left_by_pool};
ghost use Rattle.packing.specs.Answer.{checked_number, planned_number, FewSteps};

use job::Job;
use job::refusal::Refusal;
use packing::{DONE, day_told, pack, price_told, put_peaks, refused, told, written};
use price::Rates;
use timeline::Day;

// A day by its end alone, or why there is none.
fn checked(day: Result<Day, Refusal>) -> u64
    ensures { result ≡ checked_number day }
{
    day_told(day, 0)
}

// A day by its end and its number of steps, or why there is none.
fn planned(day: Result<Day, Refusal>) -> u64
    requires { FewSteps day }
    ensures { result ≡ planned_number day }
{
    match day {
        Ok(told) => day_told(day, told.steps as u16),
        Err(why) => refused(why),
    }
}

// Whether a job file is accepted: its length, or its first refusal.
#[unsafe(no_mangle)]
pub extern "C" fn ruhkevois_read(file: &[u8]) -> u64
    ensures { result ≡ read_answer file.now }
{
    match reader::read(file) {
        Ok(_) => pack(DONE, 0, file.len() as u32, 0),
        Err(why) => refused(why),
    }
}

// Reads a job file and writes it again to the front of the slice: its length, or the first refusal of the file
// and of 23. The bytes behind the file are kept; a refusal changes no byte.
#[unsafe(no_mangle)]
pub extern "C" fn ruhkevois_rewrite(file: &[u8], out: &mut [u8]) -> u64
    ensures value { result ≡ rewrite_answer file.now out.old }
    ensures out_after { out.new ≡ left_by_rewrite file.now out.old }
{
    let job = match reader::read(file) {
        Ok(job) => job,
        Err(why) => return refused(why),
    };
    let answer = writer::write(job, out);
    written(answer)
}

// Whether a plan is accepted for the job of a file: its end, with the peak of each pool in the array, or the first
// refusal of the file and of 12 to 20, which leaves the array as it was.
#[unsafe(no_mangle)]
pub extern "C" fn ruhkevois_check(file: &[u8], plan: &[u8], peaks: &mut [u32; Job::POOLS]) -> u64
    ensures value { result ≡ check_answer file.now plan.now }
    ensures peaks_after { peaks.new ≡
        peaks_by_check file.now plan.now peaks.old }
{
    let job = match reader::read(file) {
        Ok(job) => job,
        Err(why) => return refused(why),
    };
    let day = checker::check(job, plan);
    put_peaks(peaks, day);
    checked(day)
}

// What a plan for the job of a file costs at these rates for pools and stores and this evening percentage: the cents,
// or the first refusal of the file, of 12 to 20 and of 25.
#[unsafe(no_mangle)]
pub extern "C" fn ruhkevois_price(
    file: &[u8],
    plan: &[u8],
    pools: &[u32; Job::POOLS],
    stores: &[u32; Job::STORES],
    evening: u32,
) -> u64
    ensures { result ≡ price_answer file.now plan.now
        (rates_in pools.now stores.now evening) }
{
    let job = match reader::read(file) {
        Ok(job) => job,
        Err(why) => return refused(why),
    };
    let rates = Rates {
        pools: *pools,
        stores: *stores,
        evening,
    };
    let answer = price::price(job, rates, plan);
    price_told(answer)
}

// What the day of a plan for the job of a file was, by the true length of each step: its end and its number of steps,
// with the peak of each pool in the array, or the first refusal of the file, of 12 to 20 and of 30, which leaves the
// array as it was.
#[unsafe(no_mangle)]
pub extern "C" fn ruhkevois_true_day(
    file: &[u8],
    plan: &[u8],
    lengths: &[u8],
    peaks: &mut [u32; Job::POOLS],
) -> u64
    ensures value { result ≡ true_day_answer file.now plan.now lengths.now }
    ensures peaks_after { peaks.new ≡
        peaks_by_true_day file.now plan.now lengths.now peaks.old }
{
    let job = match reader::read(file) {
        Ok(job) => job,
        Err(why) => return refused(why),
    };
    let day = true_day::true_day(job, plan, lengths);
    put_peaks(peaks, day);
    planned(day)
}

// Joins two plans for the job of a file: writes the joined plan to the front of the slice. Its end and number of steps,
// with the peak of each pool in the array, or the first refusal of the file, of 12 to 15 of the first plan and of the
// second, of 21 and 34. The bytes behind the plan are kept; a refusal changes nothing.
#[unsafe(no_mangle)]
pub extern "C" fn ruhkevois_join(
    file: &[u8],
    first: &[u8],
    second: &[u8],
    out: &mut [u8],
    peaks: &mut [u32; Job::POOLS],
) -> u64
    ensures value { result ≡ joined_answer file.now first.now second.now out.old }
    ensures out_after { out.new ≡
        left_by_joining file.now first.now second.now out.old }
    ensures peaks_after { peaks.new ≡ peaks_by_joining file.now first.now second.now
        out.old peaks.old }
{
    let job = match reader::read(file) {
        Ok(job) => job,
        Err(why) => return refused(why),
    };
    let day = joining::join(job, first, second, out);
    put_peaks(peaks, day);
    planned(day)
}

// The earliest time of a set of facts in the job of a file: the minute, unreachable, or the first refusal of the
// file and of 24.
#[unsafe(no_mangle)]
pub extern "C" fn ruhkevois_earliest(file: &[u8], set: u64) -> u64
    ensures { EarliestAnswers file.now set result }
{
    let job = match reader::read(file) {
        Ok(job) => job,
        Err(why) => return refused(why),
    };
    let answer = earliest::earliest(job, set);
    told(answer)
}

// Writes a shortest plan for the job of a file to the front of the slice: its end and its number of steps, with the
// peak of each pool in the array, or the first refusal of the file, of 21 and 22. The bytes behind the plan are kept;
// a refusal changes nothing.
#[unsafe(no_mangle)]
pub extern "C" fn ruhkevois_plan(file: &[u8], out: &mut [u8], peaks: &mut [u32; Job::POOLS]) -> u64
    ensures { PlanAnswers file.now out.old peaks.old result out.new
        peaks.new }
{
    let job = match reader::read(file) {
        Ok(job) => job,
        Err(why) => return refused(why),
    };
    let day = planner::plan(job, out);
    put_peaks(peaks, day);
    planned(day)
}

// Writes the plan at a place, counted from 0, of the list of all shortest plans for the job of a file to the front of
// the slice. Answers as the planner does, or the first refusal of the file, of 21, 22 and 28. A refusal changes nothing.
#[unsafe(no_mangle)]
pub extern "C" fn ruhkevois_list(
    file: &[u8],
    place: u32,
    out: &mut [u8],
    peaks: &mut [u32; Job::POOLS],
) -> u64
    ensures { ListAnswers file.now place out.old peaks.old result out.new
        peaks.new }
{
    let job = match reader::read(file) {
        Ok(job) => job,
        Err(why) => return refused(why),
    };
    let day = lister::list(job, place, out);
    put_peaks(peaks, day);
    planned(day)
}

// Plans the day of a file in two halves, the first for the halfway set: writes the joined plan to the front of the slice.
// Answers as the planner does, or the first refusal of the file, of 24, 21, 22 and 34. A refusal changes nothing.
#[unsafe(no_mangle)]
pub extern "C" fn ruhkevois_halves(
    file: &[u8],
    halfway: u64,
    out: &mut [u8],
    peaks: &mut [u32; Job::POOLS],
) -> u64
    ensures { HalvesAnswers file.now halfway out.old peaks.old result out.new
        peaks.new }
{
    let job = match reader::read(file) {
        Ok(job) => job,
        Err(why) => return refused(why),
    };
    let day = halving::halves(job, halfway, out);
    put_peaks(peaks, day);
    planned(day)
}

// Replans the day of a file that has begun: writes a shortest plan for the new goal that keeps the steps of the current
// plan begun before the minute to the front of the slice. Answers as the planner does, or the first refusal of the file,
// of 24, 12 to 19 of the current plan, 21 and 35. A refusal changes nothing.
#[unsafe(no_mangle)]
pub extern "C" fn ruhkevois_replan(
    file: &[u8],
    plan: &[u8],
    minute: u32,
    goal: u64,
    out: &mut [u8],
    peaks: &mut [u32; Job::POOLS],
) -> u64
    ensures { ReplanAnswers file.now plan.now minute goal out.old
        peaks.old result out.new peaks.new }
{
    let job = match reader::read(file) {
        Ok(job) => job,
        Err(why) => return refused(why),
    };
    let day = replanner::replan(job, plan, minute, goal, out);
    put_peaks(peaks, day);
    planned(day)
}

// Pools the jobs of two files and writes the pooled job's file to the front of the slice: its length, or the first
// refusal of the first file, of the second, of 32, 33 and 23. The bytes behind the file are kept; a refusal changes no
// byte.
#[unsafe(no_mangle)]
pub extern "C" fn ruhkevois_pool(first: &[u8], second: &[u8], out: &mut [u8]) -> u64
    ensures value { result ≡ pool_answer first.now second.now out.old }
    ensures out_after { out.new ≡
        left_by_pool first.now second.now out.old }
{
    let mine = match reader::read(first) {
        Ok(job) => job,
        Err(why) => return refused(why),
    };
    let other = match reader::read(second) {
        Ok(job) => job,
        Err(why) => return refused(why),
    };
    let pooled = match pooling::pool(mine, other) {
        Ok(job) => job,
        Err(why) => return refused(why),
    };
    let answer = writer::write(pooled, out);
    written(answer)
}
