// Random numbers and sets of facts. The same seed and place give the same number.
ghost use Rattle.std.specs.Prelude.{◌≤◌, ◌<◌};

const PRIME: u64 = 2_147_483_647;

// One round of mixing.
fn mixed(x: u64) -> u64 {
    (x ^ (x >> 15)) % PRIME * 48_271 % PRIME
}

// The seed for one part of what is drawn by a seed.
pub fn part(seed: u64, place: u64) -> u64 {
    mixed(mixed(mixed(seed % PRIME * 1_000 + place % 1_000)))
}

// A number below n.
pub fn number(seed: u64, place: u64, n: u8) -> u8
    requires { 0 < n }
    ensures { result < n }
{
    (part(seed, place) % u64::from(n)) as u8
}

// How many facts there are, of which sets are drawn.
#[derive(Clone, Copy)]
pub struct Facts {
    pub count: u8,
    ghost some: { 0 < count },
    ghost few: { count ≤ 5 },
}

impl Facts {
    // The most facts.
    pub fn most() -> Facts {
        Facts { count: 5 }
    }

    // A set of one of the facts.
    fn single(self, seed: u64, place: u64) -> u64 {
        1 << number(seed, place, self.count)
    }

    // A set of at most two of the facts. In `empty` of four draws it is empty.
    pub fn set(self, seed: u64, empty: u8) -> u64 {
        let draw = number(seed, 0, 4);
        if draw < empty {
            return 0;
        }
        let one = self.single(seed, 1);
        if draw < 3 {
            return one;
        }
        one | self.single(seed, 2)
    }
}

// The facts in a and not in b.
pub fn without(a: u64, b: u64) -> u64 {
    a ^ (a & b)
}
