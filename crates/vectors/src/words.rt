// Words of a recorded case: a separator, then up to 16 hex digits in lower case.
ghost use Rattle.std.specs.Prelude.{◌≡◌, ◌%◌, ◌≤◌, ◌<◌, ◌^◌, pos, ◌+ℤ◌, ◌-ℤ◌, length};
ghost use Rattle.vectors.specs.Words.{digit_of, digit_at, word_at};

// What a word says, and where it ends.
#[derive(Clone, Copy)]
pub struct Word {
    pub value: u64,
    pub next: usize,
}

// What is read from a case, and where it ends.
#[derive(Clone, Copy)]
pub struct Here<T> {
    pub value: T,
    pub next: usize,
}

// What a hex digit stands for; 16 for any other byte.
fn digit_of(byte: u8) -> u64
    ensures { (result ≡ digit_of byte) × (result ≤ 16) }
{
    if byte < b'0' {
        return 16;
    }
    if byte <= b'9' {
        return (byte - b'0') as u64;
    }
    if byte < b'a' {
        return 16;
    }
    if byte <= b'f' {
        return (byte - b'a' + 10) as u64;
    }
    16
}

// The digit at a place of the text; 16 where there is none.
pub fn digit_at(text: &[u8], at: usize) -> u64
    ensures { (result ≡ digit_at text.now at) × (result ≤ 16) × (result < 16 → at < length text.now) }
{
    if at < text.len() {
        return digit_of(text[at]);
    }
    16
}

// The word behind the separator at a place of the text; past the end it says 0.
pub fn read_word(text: &[u8], at: usize) -> Word
    ensures { result ≡ word_at text.now at }
{
    if at >= text.len() {
        return Word { value: 0, next: at };
    }
    let mut value: u64 = 0;
    let end = at + 17;
    for next in at + 1..end {
        let digit = digit_at(text, next);
        if digit > 15 {
            return Word { value, next };
        }
        value = value * 16 + digit;
    }
    Word { value, next: end }
}

// A whole number that is written with 2^31 added to it.
pub fn signed(word: u64) -> i32
    ensures { result ≡ pos (word % 2 ^ 32) -ℤ pos (2 ^ 31) }
{
    let low = (word % 4294967296) as i64;
    (low - 2147483648) as i32
}

// What a whole number is written as: 2^31 more.
pub fn offset(z: i32) -> u64
    ensures { pos result ≡ z +ℤ pos (2 ^ 31) }
{
    (z as i64 + 2147483648) as u64
}
