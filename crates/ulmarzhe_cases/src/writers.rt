// The entries that write into what they are lent. If a refusal changes a lent item, or an acceptance one past its length, the answer is
// `touched`.
use crate::sink::Sink;
use crate::told::Told;
use crate::{ROOM, lists};
use compare::MOST;
use wire::Bytes;
use wire::refusal::Refusal;
use writer_head::{Given, HEADS};

// The halfwords of a difference.
const HALFWORDS: usize = 6;

// The numbers of a run: its place and its length.
const NUMBERS: usize = 2;

// The most runs of an answer: between any two of them lies a frame, which begins with its heads, and all frames fit in the room.
const RUNS: usize = ROOM / HEADS + 1;

pub fn say_set(frames: &[u8], lent: &mut [u8], sink: &mut Sink<'_>) {
    match set::read_set(frames, lent) {
        Ok(s) => say_bytes(Told::Set(s.header), lent, s.length, sink),
        Err(r) => say_bytes(Told::Refused(r), lent, Bytes(0), sink),
    }
}

pub fn say_message(given: Given, body: &[u8], lent: &mut [u8], sink: &mut Sink<'_>) {
    say_written(writer::write_message(given, body, lent), lent, sink);
}

// Not in line: a question with no list would pay for the list's place on the stack.
#[inline(never)]
pub fn say_request(list: &[u8], lent: &mut [u8], sink: &mut Sink<'_>) {
    let mut halfwords = [0u16; MOST];
    let list = lists::read_halfwords(list, &mut halfwords);
    say_written(request::write_request(list, lent), lent, sink);
}

// Not in line: a question with no list would pay for the list's place on the stack.
#[inline(never)]
pub fn say_censor(list: &[u8], lent: &mut [u8], sink: &mut Sink<'_>) {
    let mut halfwords = [0u16; MOST];
    let list = lists::read_halfwords(list, &mut halfwords);
    say_written(censor::write_censor(list, lent), lent, sink);
}

fn say_written(answer: Result<Bytes, Refusal>, lent: &[u8], sink: &mut Sink<'_>) {
    match answer {
        Ok(size) => say_bytes(Told::Wrote, lent, size, sink),
        Err(r) => say_bytes(Told::Refused(r), lent, Bytes(0), sink),
    }
}

// The text of an answer, and the bytes that it wrote.
fn say_bytes(told: Told, lent: &[u8], size: Bytes, sink: &mut Sink<'_>) {
    match lists::written(lent, size.0 as usize) {
        Some(bytes) => {
            sink.say(told);
            sink.say_bytes(bytes);
        }
        None => sink.say(Told::Touched),
    }
}

// The comparison of two maps. Not in line, as above.
#[inline(never)]
pub fn say_compared(old: &[u8], new: &[u8], most: u64, sink: &mut Sink<'_>) {
    let mut list = [0u16; MOST];
    let lent = lists::lend(&mut list, most);
    let (told, differences) = match compare::compare(old, new, lent) {
        Ok(c) => (Told::Compared(c), c.differences),
        Err(r) => (Told::Refused(r), 0),
    };
    match lists::written(lent, differences as usize * HALFWORDS) {
        Some(halfwords) => {
            sink.say(told);
            sink.say_halfwords(halfwords);
        }
        None => sink.say(Told::Touched),
    }
}

// A salvage: frames in the lent bytes, and its runs in a list that is lent besides. Not in line, as above.
#[inline(never)]
pub fn say_salvaged(damaged: &[u8], lent: &mut [u8], most_runs: u64, sink: &mut Sink<'_>) {
    let mut list = [0u64; RUNS * NUMBERS];
    let runs = lists::lend(&mut list, most_runs.saturating_mul(NUMBERS as u64));
    let (told, length, count) = match salvage::salvage(damaged, lent, runs) {
        Ok(s) => (Told::Salvaged(s), s.length, s.runs),
        Err(r) => (Told::Refused(r), 0, 0),
    };
    let numbers = lists::written(runs, count.saturating_mul(NUMBERS));
    match (lists::written(lent, length), numbers) {
        (Some(bytes), Some(numbers)) => {
            sink.say(told);
            sink.say_bytes(bytes);
            sink.say_numbers(numbers);
        }
        _ => sink.say(Told::Touched),
    }
}
