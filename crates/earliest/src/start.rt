// The times at the start: 0 for the entries whose facts both hold then.
ghost use Rattle.std.specs.Prelude.{◌≡◌, ◌≤◌, ◌<◌, replicate};
ghost use Rattle.pairs.specs.Pairs.{entry_of};
ghost use Rattle.times.specs.Numbers.{none};
ghost use Rattle.earliest.specs.Start.{BothIn, StartTimes};

use pairs::Pair;

// Whether both facts of an entry are in the set.
fn both_in(set: u64, entry: usize) -> bool
    requires { entry < 2080 }
    ensures { BothIn set entry result }
{
    let pair = pairs::pair_at(entry);
    facts::has(set, pair.low) & facts::has(set, pair.high)
}

// Puts 0 into the entries of the facts that hold at the start, in a table in which all is unreachable.
pub fn begin(table: &mut [u32], facts: u8, start: u64)
    requires { (table.old ≡ replicate 2080 none) × (facts ≤ 64) }
    ensures { StartTimes start (entry_of 0 facts) table.new }
{
    let count = Pair::count(facts);
    for entry in 0..count {
        if both_in(start, entry) {
            table[entry] = 0;
        }
    }
}
