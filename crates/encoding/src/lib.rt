// Little-endian numbers in byte slices: one function to read and one to write, for every width up to 8 bytes.
#![tactic(auto)]

ghost use Rattle.std.specs.Prelude.{◌≡◌, ◌+◌, ◌*◌, ◌^◌, ◌≤◌, ◌<◌, length};
ghost use Rattle.encoding.specs.Bytes.{from_bytes, to_bytes, part, overwrite};

// The number in the n bytes from place `at` on.
pub fn read_number(bytes: &[u8], at: usize, n: usize) -> u64
    requires { (n ≤ 8) × (at + n ≤ length bytes.now) }
    ensures { (result ≡ from_bytes (part bytes.now at n)) × (result < 256 ^ n) }
{
    let mut x: u64 = 0;
    for i in (0..n).rev() {
        x = x * 256 + u64::from(bytes[at + i]);
    }
    x
}

// Writes the n bytes of x from place `at` on.
pub fn write_number(out: &mut [u8], at: usize, n: usize, x: u64)
    requires { at + n ≤ length out.old }
    ensures { out.new ≡ overwrite out.old at (to_bytes n x) }
{
    let mut rest = x;
    for i in 0..n {
        out[at + i] = (rest % 256) as u8;
        rest /= 256;
    }
}
