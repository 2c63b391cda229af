// Lists that the library is given or lent. What is lent is laid with a pattern, so that it is seen where the library wrote.
use compare::MOST;

// After so many items the pattern begins anew.
const PERIOD: u8 = 251;

// An item of a list that is lent.
pub trait Lent: Copy + PartialEq {
    // The pattern's item at a place of its period.
    fn pattern(i: u8) -> Self;
}

impl Lent for u8 {
    fn pattern(i: u8) -> u8 {
        i
    }
}

// Above every number of a difference, so that no written number looks like the pattern.
impl Lent for u16 {
    fn pattern(i: u8) -> u16 {
        40000 + u16::from(i)
    }
}

// Above every place and every length, so that no written number looks like the pattern.
impl Lent for u64 {
    fn pattern(i: u8) -> u64 {
        u64::MAX - u64::from(i)
    }
}

// A list's first items, as many as asked for or all that there are, laid with the pattern.
pub fn lend<T: Lent>(list: &mut [T], most: u64) -> &mut [T] {
    let size = usize::try_from(most).unwrap_or(usize::MAX);
    let end = size.min(list.len());
    let lent = &mut list[..end];
    for part in lent.chunks_mut(usize::from(PERIOD)) {
        for (x, i) in part.iter_mut().zip(0..PERIOD) {
            *x = T::pattern(i);
        }
    }
    lent
}

// What an answer of that length wrote into a lent list, unless the pattern is changed after it.
pub fn written<T: Lent>(lent: &[T], length: usize) -> Option<&[T]> {
    let period = usize::from(PERIOD);
    let mut first = (length % period) as u8;
    for part in lent.chunks(period).skip(length / period) {
        if !is_laid(part, first) {
            return None;
        }
        first = 0;
    }
    lent.get(..length)
}

// Whether a period's items are the pattern's from one of them on.
fn is_laid<T: Lent>(part: &[T], first: u8) -> bool {
    let rest = part.get(usize::from(first)..).unwrap_or_default();
    for (x, i) in rest.iter().zip(first..PERIOD) {
        if *x != T::pattern(i) {
            return false;
        }
    }
    true
}

// Reads halfwords from bytes. A list above `MOST` is cut off there, and the writers refuse it as they would the whole.
pub fn read_halfwords<'a>(bytes: &[u8], list: &'a mut [u16; MOST]) -> &'a [u16] {
    let pairs = bytes.as_chunks::<2>().0;
    for (x, pair) in list.iter_mut().zip(pairs) {
        *x = u16::from_be_bytes(*pair);
    }
    &list[..pairs.len().min(MOST)]
}
