//! Numbers that are compared several at a time.
ghost use Rattle.std.specs.Prelude.{◌≡◌, ◌≢◌, ℕ, ◌+◌, ◌<◌, ◌≤◌, get_or, length, true};
ghost use Rattle.lists.specs.Words.{AreZeroBetween, word_of};

/// Four numbers as one.
#[inline(always)]
pub(crate) fn word_of(first: u16, second: u16, third: u16, fourth: u16) -> u64
    ensures { result ≡ word_of first second third fourth }
{
    first as u64 + 65536 * (second as u64 + 65536 * (third as u64 + 65536 * fourth as u64))
}

/// Whether two lists of numbers are the same. It looks at all of them, whatever it finds, so that many are compared at a time.
// Called from many places: once in the program, it takes little of the cache of instructions.
#[inline(never)]
pub fn are_same(numbers: &[u16], others: &[u16]) -> bool
    ensures { result ≡ true → numbers.now ≡ others.now }
{
    let count = numbers.len();
    if count != others.len() {
        return false;
    }
    let mut same = true;
    for at in 0..count {
        same &= numbers[at] == others[at];
    }
    same
}

/// As `are_same`, of numbers of four bytes.
// Called from many places: once in the program, it takes little of the cache of instructions.
#[inline(never)]
pub(crate) fn are_same_values(values: &[u32], others: &[u32]) -> bool
    ensures { result ≡ true → values.now ≡ others.now }
{
    let count = values.len();
    if count != others.len() {
        return false;
    }
    let mut same = true;
    for at in 0..count {
        same &= values[at] == others[at];
    }
    same
}

/// Whether four numbers from a place on are 0. They are looked at as one number.
#[inline(always)]
fn are_zero(numbers: &[u16], at: usize) -> bool
    requires four { at + 4 ≤ length numbers.now }
    requires small { get_or numbers.now (at + 3) 0 < 32768 }
    ensures first { result ≡ true → get_or numbers.now at 0 ≡ 0 }
    ensures second { result ≡ true → get_or numbers.now (at + 1) 0 ≡ 0 }
    ensures third { result ≡ true → get_or numbers.now (at + 2) 0 ≡ 0 }
    ensures fourth { result ≡ true → get_or numbers.now (at + 3) 0 ≡ 0 }
{
    let word = word_of(
        numbers[at],
        numbers[at + 1],
        numbers[at + 2],
        numbers[at + 3],
    );
    // A comparison with 0 itself the compiler takes apart into those of the four numbers.
    (word as i64) < 1
}

/// The place of the first number from a place on that isn't 0, or the list's length if there is none. The numbers are
/// below 32768. Zeros are passed four at a time.
#[inline(always)]
pub fn first_nonzero(numbers: &[u16], from: usize) -> usize
    requires from { from ≤ length numbers.now }
    requires small { (k : ℕ) → get_or numbers.now k 0 < 32768 }
    ensures behind { from ≤ result }
    ensures within { result ≤ length numbers.now }
    ensures zeros { AreZeroBetween numbers.now from result }
    ensures found { result < length numbers.now → get_or numbers.now result 0 ≢ 0 }
{
    let count = numbers.len();
    let mut at = from;
    while count - at >= 4 && are_zero(numbers, at) {
        at += 4;
    }
    while at < count {
        if numbers[at] != 0 {
            return at;
        }
        at += 1;
    }
    count
}

/// Whether two lists of bytes are the same. It looks at all of them, whatever it finds, so that many are compared at a time.
// Called from many places: once in the program, it takes little of the cache of instructions.
#[inline(never)]
pub fn are_same_bytes(bytes: &[u8], others: &[u8]) -> bool
    ensures { result ≡ true → bytes.now ≡ others.now }
{
    let count = bytes.len();
    if count != others.len() {
        return false;
    }
    let mut same = true;
    for at in 0..count {
        same &= bytes[at] == others[at];
    }
    same
}
