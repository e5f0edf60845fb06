// The rates that stand before the plan of a price: four of pools, four of stores and the percentage.
use price::Rates;

// The bytes of a rate, and of all nine.
const RATE: usize = 4;

pub const BYTES: usize = 9 * RATE;

// The place of the percentage, the last.
const EVENING: usize = BYTES - RATE;

// The rate at a place, 0 where none stands there.
fn rate(given: &[u8], at: usize) -> u32 {
    if given.len() < BYTES || EVENING < at {
        return 0;
    }
    encoding::read_number(given, at, RATE) as u32
}

pub fn rates_in(given: &[u8]) -> Rates {
    Rates {
        pools: [0, 4, 8, 12].map(|at| rate(given, at)),
        stores: [16, 20, 24, 28].map(|at| rate(given, at)),
        evening: rate(given, EVENING),
    }
}
