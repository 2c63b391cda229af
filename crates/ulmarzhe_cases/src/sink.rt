// Where an answer's text goes. It is compared, page by page, with the expected text; where none is expected it is written out.
use crate::told::Told;
use ulmarzhe_text::output::Output;
use ulmarzhe_text::page::PAGE;
use wire::refusal::Refusal;

#[derive(Clone, Copy)]
enum Aim<'a> {
    Write,
    // The expected text from what was compared on.
    Compare(&'a [u8]),
    // What was compared is not the expected text.
    Differ,
}

#[derive(Drop)]
pub struct Sink<'a> {
    rt: &'a HostRuntime,
    out: &'a mut Output,
    aim: Aim<'a>,
}

impl<'a> Sink<'a> {
    pub fn written(rt: &'a HostRuntime, out: &'a mut Output) -> Self {
        Sink {
            rt,
            out,
            aim: Aim::Write,
        }
    }

    pub fn compared(rt: &'a HostRuntime, out: &'a mut Output, expected: &'a [u8]) -> Self {
        Sink {
            rt,
            out,
            aim: Aim::Compare(expected),
        }
    }

    pub fn say(&mut self, told: Told) {
        write!(self.out.page, "{told}");
    }

    // An answer that nothing follows.
    pub fn tell(&mut self, answer: Result<Told, Refusal>) {
        self.say(answer.unwrap_or_else(Told::Refused));
    }

    // Bytes in hexadecimal.
    pub fn say_bytes(&mut self, bytes: &[u8]) {
        for b in bytes {
            self.settle(PAGE - 2);
            self.out.page.put_octet(*b);
        }
    }

    pub fn say_halfwords(&mut self, list: &[u16]) {
        for x in list {
            self.say_bytes(&x.to_be_bytes());
        }
    }

    pub fn say_numbers(&mut self, list: &[u64]) {
        for n in list {
            self.settle(PAGE / 2);
            write!(self.out.page, " {n}");
        }
    }

    // Empties the page if it is filled beyond `most`: writes it out, or compares it with the expected text.
    fn settle(&mut self, most: usize) {
        if self.out.page.len() <= most {
            return;
        }
        match self.aim {
            Aim::Write => self.out.flush(self.rt, most),
            Aim::Compare(expected) => {
                let rest = expected.strip_prefix(self.out.page.text());
                self.aim = rest.map_or(Aim::Differ, Aim::Compare);
                self.out.page.clear();
            }
            Aim::Differ => self.out.page.clear(),
        }
    }

    // Whether the whole answer is the whole expected text.
    pub fn is_met(&mut self) -> bool {
        self.settle(0);
        matches!(self.aim, Aim::Compare([]))
    }
}
