// The bytes of the slice that is lent to a call; the parts of what a record gives.

// The bytes of the longest slice.
pub const ROOM: usize = 4_200;

// The bytes from a place on, or all where it is past the end.
pub fn rest(bytes: &[u8], from: usize) -> &[u8] {
    if from <= bytes.len() {
        &bytes[from..]
    } else {
        bytes
    }
}

// The widest number that stands before something else, in bytes.
const WIDTH: usize = 4;

// The number in the first bytes, so many, or 0 where there are fewer.
pub fn leading_number(bytes: &[u8], width: usize) -> u32 {
    if WIDTH < width || bytes.len() < width {
        return 0;
    }
    (encoding::read_number(bytes, 0, width) % 4_294_967_296) as u32
}
