// Sets of facts in a 64-bit word. A promise names the set that is returned and says which facts are in it.
#![tactic(auto)]

pub mod members; // the facts of a set, one after the other

ghost use Rattle.std.specs.Prelude.{◌≡◌, not, cond, ◌&&◌, ◌||◌, ◌<◌};
ghost use Rattle.lists.specs.Answer.{Decides};
ghost use Rattle.facts.specs.FactSet.{has, Members, union, difference};
ghost use Rattle.facts.specs.FactSet.{subset, Subset, meets, Disjoint, foreign, Within};
ghost use Rattle.facts.specs.FactSet.{single, NextFact};

// How many facts a set can have: the bits of a word.
pub const BITS: u8 = 64;

// The set of all of them.
pub const ALL: u64 = 18_446_744_073_709_551_615;

// Whether fact n is in the set.
pub fn has(set: u64, n: u8) -> bool
    ensures { result ≡ has set n }
{
    if BITS <= n {
        return false;
    }
    (set >> n) % 2 == 1
}

// The facts in a or in b.
pub fn union(a: u64, b: u64) -> u64
    ensures { (result ≡ union a b) × Members result (λ n. has a n || has b n) }
{
    a | b
}

// The facts in a and not in b.
pub fn difference(a: u64, b: u64) -> u64
    ensures { (result ≡ difference a b) × Members result (λ n. has a n && not (has b n)) }
{
    a - (a & b)
}

// The facts in a and in b.
pub fn common(a: u64, b: u64) -> u64
    ensures { Members result (λ n. has a n && has b n) }
{
    a & b
}

// The set where the test is true, and no fact where it is false.
pub fn when(test: bool, set: u64) -> u64
    ensures { result ≡ cond test set 0 }
{
    if test {
        return set;
    }
    0
}

// Whether every fact in a is in b.
pub fn subset(a: u64, b: u64) -> bool
    ensures { (result ≡ subset a b) × Decides result (Subset a b) }
{
    (a & b) == a
}

// Whether some fact is in both.
pub fn meets(a: u64, b: u64) -> bool
    ensures { (result ≡ meets a b) × Decides (not result) (Disjoint a b) }
{
    (a & b) != 0
}

// Whether the set has a fact at or above the number of facts.
pub fn foreign(facts: u8, set: u64) -> bool
    ensures { (result ≡ foreign facts set) × Decides (not result) (Within facts set) }
{
    if BITS <= facts {
        return false;
    }
    (set >> facts) != 0
}

// The set of one fact.
pub fn single(n: u8) -> u64
    requires { n < 64 }
    ensures { result ≡ single n }
{
    1u64 << n
}

// The lowest fact of the set at or above a number, 64 where there is none.
pub fn next(set: u64, from: u8) -> u8
    ensures { NextFact set from result }
{
    if BITS <= from {
        return BITS;
    }
    let above = (set >> from) << from;
    u64::trailing_zeros(above) as u8
}
