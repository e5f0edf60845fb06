// The bodies of a file whose lengths are right, as a job. Nothing is tested here.
ghost use Rattle.std.specs.Prelude.{◌≡◌, map, ◌/◌, ◌≤◌, length, replicate};
ghost use Rattle.lists.specs.Lists.{filled};
ghost use Rattle.encoding.specs.Bytes.{from_bytes, part, split};
ghost use Rattle.job.specs.Job.{unused_action, action_value, job_value};
ghost use Rattle.jobfile.specs.File.{action_size, action_of, rule_of, job_of};

use crate::action::amounts;
use crate::view::ActionsView;
use encoding::read_number;
use job::{Action, Counts, Form, Job, StoreRule};
use jobfile::Layout;

// All actions of a job with so many pools and stores.
fn actions(bytes: &[u8], pools: usize, stores: usize) -> [Action; Job::ACTIONS]
    requires { (pools ≤ 4) × (stores ≤ 4) × (length bytes.now / action_size pools stores ≤ 64) }
    ensures { result ≡ filled 64 unused_action
        (map action_value (split (action_size pools stores) (action_of pools stores) bytes.now)) }
{
    let view = ActionsView::over(bytes, Layout::action_size(pools, stores));
    let count = view.count();
    let unused = Action::unused();
    let mut out = [unused; Job::ACTIONS];
    for i in 0..count {
        out[i] = view.action(i, pools, stores);
    }
    out
}

// Puts minutes of a byte each to the front of zeros: handovers, or shortest lengths.
fn put_minutes(out: &mut [u8], bytes: &[u8])
    requires { (out.old ≡ replicate (length out.old) 0) × (length bytes.now ≤ length out.old) }
    ensures { out.new ≡
        filled (length out.old) 0 (split 1 from_bytes bytes.now) }
{
    out[..bytes.len()].copy_from_slice(bytes);
}

// The rule of a job with such a head.
fn rule(head: &[u8]) -> StoreRule
    ensures { result ≡ rule_of (length head.now) }
{
    if head.len() == Layout::LONG_HEAD {
        return StoreRule::PerHour;
    }
    StoreRule::PerStep
}

// The reserve in a head, 0 in one that has none.
fn reserve(head: &[u8]) -> u8
    ensures { result ≡ from_bytes (part head.now 19 1) }
{
    if head.len() < Layout::LONG_HEAD {
        return 0;
    }
    read_number(head, Layout::RESERVE_AT, Layout::RESERVE) as u8
}

// The job that the bodies say.
pub fn decode(
    form: Form,
    head: &[u8],
    pools: &[u8],
    stores: &[u8],
    actions_: &[u8],
    waits: &[u8],
    least: &[u8],
) -> Job
    requires in_bounds { (19 ≤ length head.now) × (length head.now ≤ 20) }
    requires pools_len_bound { (length pools.now ≤ 16) × (length stores.now ≤ 16) }
    requires waits_len_bound { (length waits.now ≤ 4) × (length least.now ≤ 64) }
    requires stores_len_bound { length actions_.now / action_size (length pools.now / 4) (length stores.now / 4) ≤ 64 }
    ensures { result ≡ job_value
        (job_of form head.now pools.now stores.now actions_.now
        waits.now least.now) }
{
    let counts = Counts {
        pools: pools.len() / Layout::AMOUNT,
        stores: stores.len() / Layout::AMOUNT,
        actions: actions_.len()
            / Layout::action_size(pools.len() / Layout::AMOUNT, stores.len() / Layout::AMOUNT),
    };
    let pool_amounts = amounts(pools);
    let store_amounts = amounts(stores);
    let all = actions(actions_, counts.pools, counts.stores);
    let mut handovers = [0u8; Job::POOLS];
    put_minutes(&mut handovers, waits);
    let mut shortest = [0u8; Job::ACTIONS];
    put_minutes(&mut shortest, least);
    Job {
        facts: read_number(head, Layout::FACTS_AT, Layout::FACTS) as u8,
        deadline: read_number(head, Layout::DEADLINE_AT, Layout::DEADLINE) as u16,
        start: read_number(head, Layout::START_AT, Layout::SET),
        goal: read_number(head, Layout::GOAL_AT, Layout::SET),
        form,
        rule: rule(head),
        reserve: reserve(head),
        counts,
        pools: pool_amounts,
        handovers,
        stores: store_amounts,
        shortest,
        actions: all,
    }
}
