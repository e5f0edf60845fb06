// Both facts of each of the 2,080 entries of a table of earliest times.
#![tactic(auto)]

ghost use Rattle.std.specs.Prelude.{◌≡◌, ◌≤◌, ◌<◌};
ghost use Rattle.pairs.specs.Pairs.{entry_of, IsRowOf, PairAt};

// Two facts, or one fact twice: low ≤ high.
#[derive(Clone, Copy)]
pub struct Pair {
    pub low: u8,
    pub high: u8,
}

impl Pair {
    // How many rows the entries have, one for each fact.
    const ROWS: usize = 64;

    // How many pairs there are of 64 facts: 2,080.
    pub const COUNT: usize = Pair::ROWS * (Pair::ROWS + 1) / 2;

    // How many pairs there are of so many facts. Their entries come first.
    pub fn count(facts: u8) -> usize
        requires { facts ≤ 64 }
        ensures { (result ≡ entry_of 0 facts) × (result ≤ 2080) }
    {
        let row = usize::from(facts);
        row * (row + 1) / 2
    }
}

// The entry at which each row starts. Row q has the pairs of fact q with the facts up to it.
static ROW_STARTS: [u16; Pair::ROWS] = [
    0, 1, 3, 6, 10, 15, 21, 28, 36, 45, 55, 66, 78, 91, 105, 120, 136, 153, 171, 190, 210, 231,
    253, 276, 300, 325, 351, 378, 406, 435, 465, 496, 528, 561, 595, 630, 666, 703, 741, 780, 820,
    861, 903, 946, 990, 1035, 1081, 1128, 1176, 1225, 1275, 1326, 1378, 1431, 1485, 1540, 1596,
    1653, 1711, 1770, 1830, 1891, 1953, 2016,
];

// The row of an entry: the last that starts at the entry or before it.
fn row_of(entry: usize) -> usize
    requires { entry < 2080 }
    ensures { IsRowOf entry result }
{
    ROW_STARTS.partition_point(|start| usize::from(*start) <= entry) - 1
}

// The facts of an entry.
pub fn pair_at(entry: usize) -> Pair
    requires { entry < 2080 }
    ensures { PairAt entry result.low result.high }
{
    let row = row_of(entry);
    Pair {
        low: (entry - usize::from(ROW_STARTS[row])) as u8,
        high: row as u8,
    }
}

// The entry of two facts below 64.
pub fn entry(low: u8, high: u8) -> usize
    requires { (low ≤ high) × (high < 64) }
    ensures { (result ≡ entry_of low high) × (result < 2080) }
{
    Pair::count(high) + usize::from(low)
}
