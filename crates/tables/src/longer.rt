// Which of two actions or facts has more minutes.
ghost use Rattle.std.specs.Prelude.{◌≡◌, ◌⊎◌, ◌+◌, ◌*◌, ◌<◌, length};

// The one of two with more minutes, the first where both have as many. The minutes stand a row apart, from `at` on.
pub fn longer(numbers: &[u32], at: usize, row: usize, i: u8, k: u8) -> u8
    requires { (length numbers.now ≡ 1220) × (at + 63 * row < 1220) × (i < 64) × (k < 64) }
    ensures { (result ≡ i) ⊎ (result ≡ k) }
{
    if numbers[at + i as usize * row] < numbers[at + k as usize * row] {
        return k;
    }
    i
}
