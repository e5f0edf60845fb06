// The reader: any bytes in; the job in them, or the first refusal of the file and of its job, out. One pass over the bytes.
#![tactic(auto)]

mod action; // one action of a body, taken apart
mod decode; // the bodies of a file to a job
mod view; // the actions body, as a view of the lent file

ghost use Rattle.std.specs.Prelude.{◌≡◌, ◌+◌, ◌*◌, ◌≤◌, ◌<◌, length};
ghost use Rattle.encoding.specs.Bytes.{from_bytes, part};
ghost use Rattle.job.specs.Job.{entries, job_value, zero_value};
ghost use Rattle.jobfile.specs.File.{gapless, form_in, entries_in, size_in, layout_in, wrong_size, in_order, Small};
ghost use Rattle.jobfile.specs.File.{decoded};
ghost use Rattle.jobfile.specs.Answers.{Reads};
ghost use Rattle.reader.specs.Placed.{Placed};

use job::refusal::Refusal;
use job::validate::validate;
use job::{Form, Job};
use jobfile::Layout;

// The number of 16 bits at a place of the contents.
fn short(file: &[u8], at: usize) -> usize
    requires { at + 2 ≤ length file.now }
    ensures { (result ≡ from_bytes (part file.now at 2)) × (result < 65536) }
{
    encoding::read_number(file, at, Layout::NUMBER) as usize
}

// The form of a file, by its first offset.
fn form_in(file: &[u8]) -> Form
    requires { 2 ≤ length file.now }
    ensures { result ≡ form_in file.now }
{
    let first = short(file, Layout::OFFSET_AT);
    if first == Layout::FIVE_ENTRIES {
        return Form::Five;
    }
    if first == Layout::SIX_ENTRIES {
        return Form::Six;
    }
    Form::Four
}

// Whether a file is too short for its contents, or too long.
fn wrong_size(file: &[u8]) -> bool
    ensures { result ≡ wrong_size file.now }
{
    let length = file.len();
    if length < Layout::FOUR_ENTRIES {
        return true;
    }
    let form = form_in(file);
    (length < Layout::ENTRY * form.entries()) | (Layout::FILE < length)
}

// Whether the bodies of so many entries stand in a row, from the contents to the end of the file.
fn gapless(file: &[u8], entries: usize) -> bool
    requires { (entries ≤ 6) × (4 * entries ≤ length file.now) }
    ensures { result ≡ gapless file.now (4 * entries) 0 entries }
{
    let mut at = Layout::ENTRY * entries;
    for k in 0..entries {
        if short(file, Layout::ENTRY * k) != at {
            return false;
        }
        at += short(file, Layout::ENTRY * k + Layout::LENGTH_AT);
    }
    at == file.len()
}

// The same of a file by its form.
fn in_order(file: &[u8], form: Form) -> bool
    requires { (form ≡ form_in file.now) × (4 * entries form ≤ length file.now) }
    ensures { result ≡ in_order file.now }
{
    gapless(file, form.entries())
}

// The length of a body, 0 beyond the entries.
fn size_in(file: &[u8], entries: usize, place: usize) -> usize
    requires { (entries ≡ entries_in file.now) × (4 * entries ≤ length file.now) }
    ensures { (result ≡ size_in file.now place) × (result < 65536) }
{
    if entries <= place {
        return 0;
    }
    short(file, Layout::ENTRY * place + Layout::LENGTH_AT)
}

// The form of a file and the lengths of its bodies.
fn layout(file: &[u8], form: Form) -> Layout
    requires { (form ≡ form_in file.now) × (4 * entries form ≤ length file.now) }
    ensures { (result ≡ layout_in file.now) × Small result }
{
    let entries = form.entries();
    Layout {
        form,
        head: size_in(file, entries, Layout::HEAD_PLACE),
        pools: size_in(file, entries, Layout::POOLS_PLACE),
        stores: size_in(file, entries, Layout::STORES_PLACE),
        actions: size_in(file, entries, Layout::ACTIONS_PLACE),
        handovers: size_in(file, entries, Layout::HANDOVERS_PLACE),
        shortest: size_in(file, entries, Layout::SHORTEST_PLACE),
    }
}

// The job in a file whose contents are right.
fn job_in(file: &[u8], layout: Layout) -> Job
    requires { Placed file.now layout × Small layout }
    ensures { result ≡ job_value (decoded file.now) }
{
    let form = layout.form;
    let at = layout.places();
    let head = at.head;
    let pools = at.pools;
    let stores = at.stores;
    let actions = at.actions;
    let handovers = at.handovers;
    let shortest = at.shortest;
    decode::decode(
        form,
        &file[head..pools],
        &file[pools..stores],
        &file[stores..actions],
        &file[actions..handovers],
        &file[handovers..shortest],
        &file[shortest..],
    )
}

// The job in a file, or the first refusal of the file and of its job.
pub fn read(file: &[u8]) -> Result<Job, Refusal>
    ensures { Reads file.now result }
{
    if wrong_size(file) {
        return Err(Refusal::FileSize);
    }
    let form = form_in(file);
    if !in_order(file, form) {
        return Err(Refusal::Offsets);
    }
    let layout = layout(file, form);
    if layout.missized() {
        return Err(Refusal::BodySizes);
    }
    let job = job_in(file, layout);
    validate(job)?;
    Ok(job)
}
