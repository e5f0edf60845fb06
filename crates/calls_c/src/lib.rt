// The archive for other languages: each call of `calls` under its name in C, with the same promises.
#![tactic(auto)]

ghost use Rattle.std.specs.Prelude.{◌≡◌};
ghost use Rattle.calls.specs.Calls.{read_answer, check_answer, peaks_by_check, rewrite_answer, left_by_rewrite};
ghost use Rattle.calls.specs.Calls.{price_answer, rates_in, true_day_answer, peaks_by_true_day};
ghost use Rattle.calls.specs.Calls.{joined_answer, left_by_joining, peaks_by_joining};
ghost use Rattle.calls.specs.Calls.{EarliestAnswers, PlanAnswers, ListAnswers, HalvesAnswers, ReplanAnswers};
ghost use Rattle.calls.specs.Calls.{pool_answer, left_by_pool};

use job::Job;

// `calls::ruhkevois_read`.
#[unsafe(no_mangle)]
pub extern "C" fn ruhkevois_read(file: &[u8]) -> u64
    ensures { result ≡ read_answer file.now }
{
    calls::ruhkevois_read(file)
}

// `calls::ruhkevois_rewrite`.
#[unsafe(no_mangle)]
pub extern "C" fn ruhkevois_rewrite(file: &[u8], out: &mut [u8]) -> u64
    ensures value { result ≡ rewrite_answer file.now out.old }
    ensures out_after { out.new ≡ left_by_rewrite file.now out.old }
{
    calls::ruhkevois_rewrite(file, out)
}

// `calls::ruhkevois_check`.
#[unsafe(no_mangle)]
pub extern "C" fn ruhkevois_check(file: &[u8], plan: &[u8], peaks: &mut [u32; Job::POOLS]) -> u64
    ensures value { result ≡ check_answer file.now plan.now }
    ensures peaks_after { peaks.new ≡
        peaks_by_check file.now plan.now peaks.old }
{
    calls::ruhkevois_check(file, plan, peaks)
}

// `calls::ruhkevois_price`.
#[unsafe(no_mangle)]
pub extern "C" fn ruhkevois_price(
    file: &[u8],
    plan: &[u8],
    pools: &[u32; Job::POOLS],
    stores: &[u32; Job::STORES],
    evening: u32,
) -> u64
    ensures { result ≡ price_answer file.now plan.now
        (rates_in pools.now stores.now evening) }
{
    calls::ruhkevois_price(file, plan, pools, stores, evening)
}

// `calls::ruhkevois_true_day`.
#[unsafe(no_mangle)]
pub extern "C" fn ruhkevois_true_day(
    file: &[u8],
    plan: &[u8],
    lengths: &[u8],
    peaks: &mut [u32; Job::POOLS],
) -> u64
    ensures value { result ≡ true_day_answer file.now plan.now lengths.now }
    ensures peaks_after { peaks.new ≡
        peaks_by_true_day file.now plan.now lengths.now peaks.old }
{
    calls::ruhkevois_true_day(file, plan, lengths, peaks)
}

// `calls::ruhkevois_join`.
#[unsafe(no_mangle)]
pub extern "C" fn ruhkevois_join(
    file: &[u8],
    first: &[u8],
    second: &[u8],
    out: &mut [u8],
    peaks: &mut [u32; Job::POOLS],
) -> u64
    ensures value { result ≡ joined_answer file.now first.now second.now out.old }
    ensures out_after { out.new ≡
        left_by_joining file.now first.now second.now out.old }
    ensures peaks_after { peaks.new ≡ peaks_by_joining file.now first.now second.now
        out.old peaks.old }
{
    calls::ruhkevois_join(file, first, second, out, peaks)
}

// `calls::ruhkevois_earliest`.
#[unsafe(no_mangle)]
pub extern "C" fn ruhkevois_earliest(file: &[u8], set: u64) -> u64
    ensures { EarliestAnswers file.now set result }
{
    calls::ruhkevois_earliest(file, set)
}

// `calls::ruhkevois_plan`.
#[unsafe(no_mangle)]
pub extern "C" fn ruhkevois_plan(file: &[u8], out: &mut [u8], peaks: &mut [u32; Job::POOLS]) -> u64
    ensures { PlanAnswers file.now out.old peaks.old result out.new
        peaks.new }
{
    calls::ruhkevois_plan(file, out, peaks)
}

// `calls::ruhkevois_list`.
#[unsafe(no_mangle)]
pub extern "C" fn ruhkevois_list(
    file: &[u8],
    place: u32,
    out: &mut [u8],
    peaks: &mut [u32; Job::POOLS],
) -> u64
    ensures { ListAnswers file.now place out.old peaks.old result out.new
        peaks.new }
{
    calls::ruhkevois_list(file, place, out, peaks)
}

// `calls::ruhkevois_halves`.
#[unsafe(no_mangle)]
pub extern "C" fn ruhkevois_halves(
    file: &[u8],
    halfway: u64,
    out: &mut [u8],
    peaks: &mut [u32; Job::POOLS],
) -> u64
    ensures { HalvesAnswers file.now halfway out.old peaks.old result out.new
        peaks.new }
{
    calls::ruhkevois_halves(file, halfway, out, peaks)
}

// `calls::ruhkevois_replan`.
#[unsafe(no_mangle)]
pub extern "C" fn ruhkevois_replan(
    file: &[u8],
    plan: &[u8],
    minute: u32,
    goal: u64,
    out: &mut [u8],
    peaks: &mut [u32; Job::POOLS],
) -> u64
    ensures { ReplanAnswers file.now plan.now minute goal out.old
        peaks.old result out.new peaks.new }
{
    calls::ruhkevois_replan(file, plan, minute, goal, out, peaks)
}

// `calls::ruhkevois_pool`.
#[unsafe(no_mangle)]
pub extern "C" fn ruhkevois_pool(first: &[u8], second: &[u8], out: &mut [u8]) -> u64
    ensures value { result ≡ pool_answer first.now second.now out.old }
    ensures out_after { out.new ≡
        left_by_pool first.now second.now out.old }
{
    calls::ruhkevois_pool(first, second, out)
}
