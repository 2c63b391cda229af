// The words of a question behind its name: an entry's word, and what it is asked with.
ghost use Rattle.std.specs.Prelude.{◌≤◌};

use radial::Name;
use ulmarzhe_text::words;

// What is left of the question. It begins with the space before the next word.
#[derive(Drop)]
pub struct Args<'a> {
    rest: &'a mut [u8],
}

impl<'a> Args<'a> {
    pub fn new(rest: &'a mut [u8]) -> Self {
        Args { rest }
    }

    pub fn word(&mut self) -> Option<&'a mut [u8]> {
        self.rest.split_off_first_mut()?;
        let end = words::until(self.rest, 0, b' ');
        self.rest.split_off_mut(..end)
    }

    // No word is left.
    pub fn end(&self) -> Option<()> {
        if self.rest.is_empty() {
            return Some(());
        }
        None
    }

    pub fn number(&mut self) -> Option<u64> {
        words::read_decimal(self.word()?)
    }

    // A number that fits its type.
    pub fn fit<T: TryFrom<u64, Error: Drop>>(&mut self) -> Option<T> {
        T::try_from(self.number()?).ok()
    }

    // The four bytes of a moment's name. A pair that is no digits counts as 256 and reads as 0, and the name is refused only where the four
    // come to more than four bytes can.
    pub fn name(&mut self) -> Option<Name> {
        let [b'x', a, b, c, d, e, f, g, h] = self.word()? else {
            return None;
        };
        let first = words::octet(*a, *b);
        let second = words::octet(*c, *d);
        let third = words::octet(*e, *f);
        let fourth = words::octet(*g, *h);
        if 1020 < worth(first) + worth(second) + worth(third) + worth(fourth) {
            return None;
        }
        Some([
            first.unwrap_or(0),
            second.unwrap_or(0),
            third.unwrap_or(0),
            fourth.unwrap_or(0),
        ])
    }

    // An `x` and digits, which are turned into bytes in place.
    pub fn bytes(&mut self) -> Option<&'a [u8]> {
        let word = self.word()?;
        let [b'x', digits @ ..] = word else {
            return None;
        };
        if digits.len() % 2 != 0 {
            return None;
        }
        let length = words::decode(digits)?;
        digits.get(..length)
    }

    // The bytes of halfwords.
    pub fn halfwords(&mut self) -> Option<&'a [u8]> {
        let bytes = self.bytes()?;
        if bytes.len() % 2 != 0 {
            return None;
        }
        Some(bytes)
    }
}

fn worth(pair: Option<u8>) -> u16
    ensures { result ≤ 256 }
{
    match pair {
        Some(byte) => u16::from(byte),
        None => 256,
    }
}
