// A picture of a moment's codes: a row for each radial that has the moment, in order, a column for each gate. A first walk measures it,
// a second one draws it.
use crate::listing;
use crate::moments::Moment;
use crate::recorded::{Found, Task};
use radial_check::WIDE_WORD;
use radial_head::MomentHead;
use ulmarzhe_text::output::Output;
use ulmarzhe_text::page::Page;
use wire::refusal::Refusal;

// The largest code of a picture. A code takes a byte, or two.
#[derive(Clone, Copy, PartialEq, Eq)]
enum Largest {
    Narrow = 255,
    Wide = 65535,
}

// How many rows a picture has, and how many gates its longest row.
#[derive(Clone, Copy)]
pub struct Picture {
    moment: Moment,
    rows: u64,
    most: u16,
    largest: Largest,
}

// A radial's body, and the head of its moment.
#[derive(Clone, Copy)]
struct Shown<'a> {
    body: &'a [u8],
    head: MomentHead,
}

impl Picture {
    pub fn new(moment: Moment) -> Self {
        Picture {
            moment,
            rows: 0,
            most: 0,
            largest: Largest::Narrow,
        }
    }

    pub fn is_empty(&self) -> bool {
        self.most == 0
    }

    // The moment of the radial in a frame, where it has one.
    fn look_for<'a>(&self, found: Found<'a>) -> Result<Option<Shown<'a>>, Refusal> {
        let Some(body) = found.radial()? else {
            return Ok(None);
        };
        match radial::moment(body, self.moment.name()) {
            Ok(head) => Ok(Some(Shown { body, head })),
            Err(Refusal::AskedFor) => Ok(None),
            Err(why) => Err(why),
        }
    }

    fn measure(&mut self, m: MomentHead) {
        self.rows = self.rows.wrapping_add(1);
        self.most = self.most.max(m.gates);
        if m.word == WIDE_WORD {
            self.largest = Largest::Wide;
        }
    }

    // The picture's head: its width, its height, and the largest code.
    pub fn put_head(&self, page: &mut Page) {
        let largest = self.largest as u16;
        write!(page, "P5\n{} {}\n{largest}\n", self.most, self.rows);
    }

    // A row with fewer gates than the longest is filled up with 0.
    fn put_row(&self, shown: Shown<'_>, page: &mut Page) {
        let gates = radial_gates::gates(shown.body, self.moment.name());
        for i in 0..self.most {
            self.put_pixel(code_at(gates, shown.head.word, i), page);
        }
    }

    fn put_pixel(&self, code: u16, page: &mut Page) {
        let [high, low] = code.to_be_bytes();
        if self.largest == Largest::Wide {
            page.put_byte(high);
        }
        page.put_byte(low);
    }
}

#[derive(Clone, Copy)]
pub struct Survey {
    pub picture: Picture,
}

impl Task for Survey {
    fn take(&mut self, found: Found<'_>, _out: &mut Output) {
        if let Ok(Some(shown)) = self.picture.look_for(found) {
            self.picture.measure(shown.head);
        }
    }

    // The second walk tells it.
    fn stop(&self, _rt: &HostRuntime, _place: u64, _why: Refusal, _out: &mut Output) {}
}

#[derive(Clone, Copy)]
pub struct Drawing {
    pub picture: Picture,
}

impl Task for Drawing {
    fn take(&mut self, found: Found<'_>, out: &mut Output) {
        match self.picture.look_for(found) {
            Ok(Some(shown)) => self.picture.put_row(shown, &mut out.page),
            Ok(None) => {}
            Err(_) => out.refuse(),
        }
    }

    // Writes what was drawn, then the damaged place on standard error.
    fn stop(&self, rt: &HostRuntime, place: u64, why: Refusal, out: &mut Output) {
        out.flush(rt, 0);
        if out.has_failed() {
            return;
        }
        listing::list_stop(place, why, out);
        let _ = out.page.send(&rt.stderr());
        out.page.clear();
    }
}

// The code of a gate, or 0 where there is none.
pub fn code_at(gates: &[u8], word: u8, i: u16) -> u16 {
    let i = u32::from(i);
    if word == WIDE_WORD {
        return wire::fetch::<u16>(gates, i * 2);
    }
    u16::from(wire::fetch::<u8>(gates, i))
}
