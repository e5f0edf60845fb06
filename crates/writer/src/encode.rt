// The parts of a file, each written at its place of a slice that is long enough.
ghost use Rattle.std.specs.Prelude.{◌≡◌, ◌+◌, ◌*◌, ◌≤◌, length};
ghost use Rattle.lists.specs.Lists.{firsts};
ghost use Rattle.encoding.specs.Bytes.{to_bytes, joined, overwrite};
ghost use Rattle.job.specs.Job.{head_size, action_in, job_in, Fits};
ghost use Rattle.jobfile.specs.File.{reserve_bytes, head_bytes, amount_bytes, action_bytes, minute_bytes, action_size};
ghost use Rattle.jobfile.specs.File.{bodies, file_of, layout_of, numbers_of, Small};
ghost use Rattle.writer.specs.Room.{Room};

use encoding::write_number;
use job::{Action, Counts, Job, StoreRule};
use jobfile::{Layout, Places};

// An entry of the contents has so many numbers, and six entries so many.
const ENTRY_NUMBERS: usize = Layout::ENTRY / Layout::NUMBER;

const NUMBERS: usize = Layout::SIX_ENTRIES / Layout::NUMBER;

// The form of the job's file and the lengths of its bodies.
pub fn layout(job: Job) -> Layout
    requires { Fits job.counts }
    ensures { (result ≡ layout_of job.form (bodies (job_in job))) × Small result }
{
    let form = job.form;
    let rule = job.rule;
    let counts = job.counts;
    let size = Layout::action_size(counts.pools, counts.stores);
    Layout {
        form,
        head: rule.head(),
        pools: Layout::AMOUNT * counts.pools,
        stores: Layout::AMOUNT * counts.stores,
        actions: counts.actions * size,
        handovers: form.handovers(counts.pools),
        shortest: form.shortest(counts.actions),
    }
}

// The numbers of six entries. A form has the first of them.
fn numbers(layout: Layout, at: Places) -> [usize; NUMBERS]
    ensures { result ≡ numbers_of layout at }
{
    [
        at.head,
        layout.head,
        at.pools,
        layout.pools,
        at.stores,
        layout.stores,
        at.actions,
        layout.actions,
        at.handovers,
        layout.handovers,
        at.shortest,
        layout.shortest,
    ]
}

// The first n numbers of the contents, at the front.
fn contents(out: &mut [u8], xs: [usize; NUMBERS], n: usize)
    requires { (n ≤ 12) × (2 * n ≤ length out.old) }
    ensures { out.new ≡ overwrite out.old 0 (joined (to_bytes 2) (firsts n 0 xs)) }
{
    for k in 0..n {
        write_number(out, Layout::NUMBER * k, Layout::NUMBER, xs[k] as u64);
    }
}

// The reserve at place `at`, in a head that has one.
fn reserve(out: &mut [u8], at: usize, job: Job)
    requires { at + length (reserve_bytes job.rule (job_in job).reserve) ≤ length out.old }
    ensures { out.new ≡
        overwrite out.old at (reserve_bytes job.rule (job_in job).reserve) }
{
    let rule = job.rule;
    if let StoreRule::PerHour = rule {
        write_number(out, at, Layout::RESERVE, u64::from(job.reserve));
    }
}

// The head, from place `at` on.
fn head(out: &mut [u8], at: usize, job: Job)
    requires { at + head_size job.rule ≤ length out.old }
    ensures { out.new ≡ overwrite out.old at (head_bytes (job_in job)) }
{
    write_number(out, at, Layout::FACTS, u64::from(job.facts));
    write_number(
        out,
        at + Layout::DEADLINE_AT,
        Layout::DEADLINE,
        u64::from(job.deadline),
    );
    write_number(out, at + Layout::START_AT, Layout::SET, job.start);
    write_number(out, at + Layout::GOAL_AT, Layout::SET, job.goal);
    reserve(out, at + Layout::RESERVE_AT, job);
}

// The first n amounts, from place `at` on.
fn amounts(out: &mut [u8], at: usize, xs: [u32; Job::AMOUNTS], n: usize)
    requires { (n ≤ 4) × (at + 4 * n ≤ length out.old) }
    ensures { out.new ≡ overwrite out.old at (amount_bytes (firsts n 0 xs)) }
{
    for i in 0..n {
        write_number(
            out,
            at + Layout::AMOUNT * i,
            Layout::AMOUNT,
            u64::from(xs[i]),
        );
    }
}

// The first n minutes, a byte each, from place `at` on.
fn minutes(out: &mut [u8], at: usize, xs: &[u8], n: usize)
    requires { (n ≤ length xs.now) × (at + n ≤ length out.old) }
    ensures { out.new ≡
        overwrite out.old at (minute_bytes (firsts n 0 xs.now)) }
{
    for i in 0..n {
        write_number(out, at + i, Layout::MINUTES, u64::from(xs[i]));
    }
}

// One action of a job with these counts, from place `at` on.
fn action(out: &mut [u8], at: usize, counts: Counts, a: Action)
    requires { Fits counts × (at + action_size counts.pools counts.stores ≤ length out.old) }
    ensures { out.new ≡ overwrite out.old at (action_bytes (action_in counts a)) }
{
    let held = a.pools;
    let taken = a.stores;
    let uses = at + Layout::ACTION;
    let middle = uses + Layout::AMOUNT * counts.pools;
    write_number(out, at, Layout::DURATION, u64::from(a.duration));
    write_number(out, at + Layout::NEEDS_AT, Layout::SET, a.needs);
    write_number(out, at + Layout::ADDS_AT, Layout::SET, a.adds);
    write_number(out, at + Layout::DELETES_AT, Layout::SET, a.deletes);
    amounts(out, uses, held, counts.pools);
    amounts(out, middle, taken, counts.stores);
}

// All actions of a job, of `size` bytes each, from place `at` on.
fn actions(out: &mut [u8], at: usize, size: usize, job: Job)
    requires { Fits job.counts × (size ≡ action_size job.counts.pools job.counts.stores)
        × (at + job.counts.actions * size ≤ length out.old) }
    ensures { out.new ≡ overwrite out.old at (joined action_bytes (job_in job).actions) }
{
    let counts = job.counts;
    for i in 0..counts.actions {
        action(out, at + i * size, counts, job.actions[i]);
    }
}

// The whole file, at the front of a slice that has room for it, with each body at its place.
pub fn file(out: &mut [u8], job: Job, layout: Layout, at: Places)
    requires { Fits job.counts × Room job layout at (length out.old) }
    ensures { out.new ≡ overwrite out.old 0 (file_of (job_in job)) }
{
    let form = job.form;
    let counts = job.counts;
    let pools = job.pools;
    let stores = job.stores;
    let size = Layout::action_size(counts.pools, counts.stores);
    let entries = numbers(layout, at);
    contents(out, entries, ENTRY_NUMBERS * form.entries());
    head(out, at.head, job);
    amounts(out, at.pools, pools, counts.pools);
    amounts(out, at.stores, stores, counts.stores);
    actions(out, at.actions, size, job);
    minutes(out, at.handovers, &job.handovers, layout.handovers);
    minutes(out, at.shortest, &job.shortest, layout.shortest);
}
