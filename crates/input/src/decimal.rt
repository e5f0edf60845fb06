// Numbers in decimal digits.
ghost use Rattle.std.specs.Prelude.{[], ◌∷◌};
ghost use Rattle.input.specs.Decimal.{Reads, ReadsFrom};

// The digits of a decimal number are those below ten.
const TEN: u64 = 10;

// The number x with one digit more, where the byte is a digit and the number not over the most.
fn with_digit(x: u64, byte: u8, most: u64) -> Option<u64>
    ensures { ReadsFrom most x (byte ∷ []) result }
{
    if !matches!(byte, b'0'..=b'9') {
        return None;
    }
    let tens = x.checked_mul(TEN)?;
    let more = tens.checked_add(u64::from(byte - b'0'))?;
    if most < more {
        return None;
    }
    Some(more)
}

// The number that the text is in decimal digits, where it is one and not over the most. `parse` reads a sign too.
pub fn decimal(text: &[u8], most: u64) -> Option<u64>
    ensures { Reads most text.now result }
{
    if text.is_empty() {
        return None;
    }
    let mut x = 0;
    for byte in text {
        x = with_digit(x, *byte, most)?;
    }
    Some(x)
}
