// Two jobs pooled to one. What their values hold beyond their counts, forms and rules is ignored.
use crate::beyond::{day, day_with, day_with_action};
use crate::crews::{crew, crew_and_day, day_and_crew, two_days};
use crate::filled::filled;
use crate::{forms, jobs, ranges, season, trips};
use job::{Form, Job};
use made_jobs::parts;
use made_jobs::parts::{with_handovers, with_shortest};
use std::io;

// The refusal, or whether the pooled job is the expected one in every place.
fn pooled(rt: &impl Print, case: &str, first: Job, second: Job, expected: Job) -> io::Result<()> {
    output::name(rt, case)?;
    match pooling::pool(first, second) {
        Ok(job) => print!(rt; "{}", trips::same(parts::same_everywhere(job, expected))),
        Err(why) => print!(rt; "refused {}", u8::from(why)),
    }?;
    println!(rt; "")
}

// The same where a refusal is expected.
fn unpooled(rt: &impl Print, case: &str, first: Job, second: Job) -> io::Result<()> {
    pooled(rt, case, first, second, Job::zero())
}

// Two jobs in both orders, and what is expected of each.
fn both_orders(
    rt: &impl Print,
    case: &str,
    first: Job,
    second: Job,
    expected: Job,
    other_expected: Job,
) -> io::Result<()> {
    pooled(rt, case, first, second, expected)?;
    pooled(rt, "the other order", second, first, other_expected)
}

// A value of the day's job, and the crew.
fn with_crew(rt: &impl Print, case: &str, day: Job) -> io::Result<()> {
    both_orders(rt, case, day, crew(), day_and_crew(), crew_and_day())
}

// Beside each other these jobs have too much gear and different heads: 32 and 33 hold too.
pub fn refused(rt: &impl Print) -> io::Result<()> {
    output::heading(
        rt,
        "Both come after the checks of the first job, then the second.",
    )?;
    let base = jobs::base();
    let hourly = season::hourly(jobs::with_first_store(day(), 1_000_000), 0);
    let counts = parts::with_counts(base, usize::MAX, usize::MAX, usize::MAX);
    let facts = jobs::with_head(base, 65, 1_440, 1, 2);
    unpooled(rt, "3, second 4", counts, facts)?;
    unpooled(rt, "4, second 3", facts, counts)?;
    unpooled(rt, "26, second 3", season::hourly(base, 0), counts)?;
    unpooled(rt, "3, 32 and 33", hourly, counts)?;
    unpooled(rt, "4, 32 and 33", hourly, facts)?;
    unpooled(rt, "26, 32 and 33", base, season::hourly(base, 0))?;
    unpooled(rt, "32 and 33", base, hourly)
}

// A job of so many pools, stores and actions, with 4,000,000,000 in each place beyond, and an empty job with other
// numbers there.
fn with_none(
    rt: &impl Print,
    case: &str,
    pools: usize,
    stores: usize,
    actions: usize,
) -> io::Result<()> {
    let job = filled(pools, stores, actions, 4_000_000_000);
    let clean = filled(pools, stores, actions, 0);
    let none = parts::with_counts(filled(4, 4, 64, 0), 0, 0, 0);
    let empty = jobs::with_head(none, 0, 0, 0, 0);
    both_orders(rt, case, job, empty, clean, clean)
}

pub fn beyond_counts(rt: &impl Print) -> io::Result<()> {
    output::heading(
        rt,
        "What is beyond the counts is ignored; the pooled job has zeros there.",
    )?;
    let most = 4_000_000_000;
    with_crew(rt, "zeros beyond", day())?;
    with_crew(rt, "9 of 0 beyond", day_with(0, 9))?;
    with_crew(rt, "4,000,000,000 beyond", day_with(most, most))?;
    with_crew(rt, "length 0 beyond", day_with_action())?;
    pooled(
        rt,
        "beyond both",
        day_with(most, 9),
        day_with(most, most),
        two_days(),
    )?;
    with_none(rt, "no pools, stores and actions", 0, 0, 0)?;
    with_none(rt, "a pool, three stores, two actions", 1, 3, 2)?;
    with_none(rt, "three pools, a store, 63 actions", 3, 1, 63)
}

// The crew with these handovers of its two pools, and 255 beyond.
fn handed_crew(first: u8, second: u8) -> Job {
    with_handovers(crew(), Form::Five, [first, second, 255, 255])
}

// The job in five entries with these handovers of two pools.
fn five(job: Job, first: u8, second: u8) -> Job {
    with_handovers(job, Form::Five, [first, second, 0, 0])
}

// A value of the day's job, and the crew with these handovers.
fn with_handed_crew(
    rt: &impl Print,
    case: &str,
    day: Job,
    first: u8,
    second: u8,
) -> io::Result<()> {
    both_orders(
        rt,
        case,
        day,
        handed_crew(first, second),
        five(day_and_crew(), first, second),
        five(crew_and_day(), first, second),
    )
}

pub fn beyond_forms(rt: &impl Print) -> io::Result<()> {
    output::heading(
        rt,
        "What is beyond the form is ignored; the pooled job has zeros there.",
    )?;
    let four = forms::four(day());
    with_crew(rt, "four entries, 255 beyond", four)?;
    pooled(
        rt,
        "four entries twice, 255 beyond",
        four,
        forms::four(crew()),
        day_and_crew(),
    )?;
    with_handed_crew(rt, "four entries and handover 0", four, 0, 7)?;
    with_handed_crew(
        rt,
        "five entries twice, 255 beyond",
        forms::five(day(), 3),
        3,
        7,
    )?;
    unpooled(
        rt,
        "33, four entries with 7 beyond and handover 7",
        with_handovers(day(), Form::Four, [7; Job::POOLS]),
        handed_crew(7, 7),
    )
}

// The job in six entries with these shortest lengths of three actions.
fn six(job: Job, first: u8, second: u8, third: u8) -> Job {
    let mut lengths = [0u8; Job::ACTIONS];
    lengths[..3].copy_from_slice(&[first, second, third]);
    with_shortest(job, Form::Six, lengths)
}

// The day's actions last 3 and 2 minutes, the crew's 4.
pub fn beyond_actions(rt: &impl Print) -> io::Result<()> {
    output::heading(
        rt,
        "Older forms have shortest equal to longest, whatever the value holds.",
    )?;
    let long = ranges::five(day(), 0, 200);
    let short = ranges::six(day(), 2, 1);
    let crew_six = ranges::six(crew(), 1, 200);
    both_orders(
        rt,
        "five entries twice, 0 and 200 beyond",
        long,
        ranges::five(crew(), 0, 0),
        five(day_and_crew(), 0, 0),
        five(crew_and_day(), 0, 0),
    )?;
    both_orders(
        rt,
        "five entries and six",
        long,
        crew_six,
        six(day_and_crew(), 3, 2, 1),
        six(crew_and_day(), 1, 3, 2),
    )?;
    both_orders(
        rt,
        "six entries and four, 200 beyond",
        short,
        crew(),
        six(day_and_crew(), 2, 1, 4),
        six(crew_and_day(), 4, 2, 1),
    )
}

pub fn beyond_rules(rt: &impl Print) -> io::Result<()> {
    output::heading(
        rt,
        "A reserve under the old rule is ignored; the pooled job has 0 there.",
    )?;
    let crew_33 = season::hourly(crew(), 33);
    both_orders(
        rt,
        "old rule, reserves 255 and 7",
        season::old(day(), 255),
        season::old(crew(), 7),
        day_and_crew(),
        crew_and_day(),
    )?;
    both_orders(
        rt,
        "hourly, reserve 33",
        season::hourly(day(), 33),
        crew_33,
        season::hourly(day_and_crew(), 33),
        season::hourly(crew_and_day(), 33),
    )?;
    unpooled(
        rt,
        "33, reserves 32 and 33",
        season::hourly(day(), 32),
        crew_33,
    )?;
    unpooled(
        rt,
        "33, old rule and hourly, reserve 33",
        season::old(day(), 33),
        crew_33,
    )
}
