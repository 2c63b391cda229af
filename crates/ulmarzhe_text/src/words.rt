// Words: where one ends, and what it says as a number or as bytes.
ghost use Rattle.std.specs.Prelude.{◌<◌, ◌≤◌, length, IfSome};

// The place of the next `mark` from a place on, or the end.
pub fn until(s: &[u8], from: usize, mark: u8) -> usize
    ensures { result ≤ length s.now }
{
    let rest = s.get(from..).unwrap_or_default();
    match rest.iter().position(|b| *b == mark) {
        Some(i) => from + i,
        None => s.len(),
    }
}

// A decimal number of 64 bits at most.
pub fn read_decimal(word: &[u8]) -> Option<u64> {
    if word.is_empty() {
        return None;
    }
    let mut n = 0u64;
    for digit in word {
        if !digit.is_ascii_digit() {
            return None;
        }
        n = n.checked_mul(10)?.checked_add(u64::from(*digit - b'0'))?;
    }
    Some(n)
}

// The value of a lower-case hexadecimal digit.
fn nibble(digit: u8) -> Option<u8>
    ensures { IfSome result (λ n. n < 16) }
{
    match digit {
        b'0'..=b'9' => Some(digit - b'0'),
        b'a'..=b'f' => Some(digit - b'a' + 10),
        _ => None,
    }
}

// The byte that two digits stand for.
pub fn octet(high: u8, low: u8) -> Option<u8> {
    Some(nibble(high)? * 16 + nibble(low)?)
}

// Turns digits into bytes in place and answers how many, unless the digits are wrong.
pub fn decode(digits: &mut [u8]) -> Option<usize>
    ensures { IfSome result (λ n. n ≤ length digits.new) }
{
    let count = digits.len() / 2;
    for i in 0..count {
        digits[i] = octet(digits[2 * i], digits[2 * i + 1])?;
    }
    Some(count)
}
