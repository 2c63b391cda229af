// Joins a buffer of frames, in any order, into a lent output. The first pass walks the frames and notes where each segment's
// data lies, the second copies. Nothing is written until 12 and 13 are checked.
#![tactic(auto)]

ghost use Rattle.std.specs.Prelude.{◌≡◌, ◌*◌, ◌≤◌};
ghost use Rattle.wire.specs.Checks.{some_broken};
ghost use Rattle.wire.specs.Answers.{Promise};
ghost use Rattle.wire.specs.Writing.{filled};
ghost use Rattle.frame.specs.Session.{session_limit};
ghost use Rattle.header_rule.specs.Rules.{most_segments};
ghost use Rattle.set_spec.specs.Segment.{agree_checks};
ghost use Rattle.set_spec.specs.Walk.{set_of};
ghost use Rattle.set.specs.Told.{tell_set};
ghost use Rattle.set.specs.Steps.{TurnTaken, Blank, Gathers, Parts, Joinable, all_set, parts_long, parts};

use header::Header;
use wire::Bytes;
use wire::refusal::Refusal;

// Segment 1's header, and the length of the joined data.
#[derive(Clone, Copy)]
pub struct Set {
    pub header: Header,
    pub length: Bytes,
}

const MOST_SEGMENTS: usize = header_rule::MOST_SEGMENTS as usize;

// Where the data of a segment begins and ends in the buffer.
#[derive(Clone, Copy, Default)]
struct Part {
    start: usize,
    end: usize,
}

// What the first pass notes: the header of the first frame and that of segment 1, which numbers were seen, and where the data of each
// segment lies. Segment k + 1 is at index k. Both headers are zeros until they are met, as neither is read before. The flags are an array
// of 128 of their own, as the customer names that form.
#[derive(Drop)]
struct Gathered {
    first: Header,
    one: Header,
    flags: [bool; MOST_SEGMENTS],
    parts: [Part; MOST_SEGMENTS],
}

// Whether a header disagrees with the first one.
fn disagrees(first: Header, h: Header) -> bool
    ensures { result ≡ some_broken (agree_checks first h) }
{
    h.channel != first.channel
        || h.kind != first.kind
        || h.date != first.date
        || h.milliseconds != first.milliseconds
        || h.segments != first.segments
}

impl Gathered {
    // No segment was met.
    fn nothing() -> Gathered
        ensures { Blank result }
    {
        Gathered {
            first: header::no_header(),
            one: header::no_header(),
            flags: [false; MOST_SEGMENTS],
            parts: [Part::default(); MOST_SEGMENTS],
        }
    }

    // Handles one frame: it is refused, or its number is marked as seen and the place of its data is noted. Returns where the next one
    // begins. Not in line: in the loop the compiler would keep every field of both headers outside of the struct, and move all at each turn.
    #[inline(never)]
    fn take_turn(&mut self, frames: &[u8], at: usize) -> Result<usize, Refusal>
        ensures { TurnTaken frames.now at self.old self.new result }
    {
        let segment = set_segment::segment_at(frames, at)?;
        let h = segment.header;
        if at == 0 {
            self.first = h;
        }
        if disagrees(self.first, h) {
            return Err(Refusal::Disagrees);
        }
        let k = h.number as usize - 1;
        if self.flags[k] {
            return Err(Refusal::AlreadySeen);
        }
        self.flags[k] = true;
        self.parts[k] = Part {
            start: segment.start,
            end: segment.next,
        };
        if h.number == 1 {
            self.one = h;
        }
        Ok(segment.next)
    }

    // The first pass: each frame in turn, to the end of the buffer.
    fn gather(&mut self, frames: &[u8]) -> Result<(), Refusal>
        requires { Blank self.old }
        ensures { Gathers frames.now self.new result }
    {
        let mut at = 0;
        while at < frames.len() {
            at = self.take_turn(frames, at)?;
        }
        Ok(())
    }

    // Whether each of the numbers 1 to n was seen.
    fn all_seen(&self, n: usize) -> bool
        requires { n ≤ most_segments }
        ensures { result ≡ all_set self.now.flags n }
    {
        self.flags[..n].iter().all(|seen| *seen)
    }

    // The total length of the data of segments 1 to n.
    fn joined_length(&self, n: usize) -> usize
        requires { (n ≤ most_segments) × Parts self.now }
        ensures { (result ≡ parts_long self.now n) × (result ≤ n * session_limit.0) }
    {
        let mut sum = 0;
        for part in &self.parts[..n] {
            sum += part.end - part.start;
        }
        sum
    }

    // The second pass: the data of segments 1 to n, one after the other from the output's start.
    fn join(&self, frames: &[u8], n: usize, out: &mut [u8])
        requires { Joinable frames.now self.now n out.old }
        ensures { out.new ≡ filled (parts frames.now self.now n) out.old }
    {
        let mut place = 0;
        for part in &self.parts[..n] {
            let data = &frames[part.start..part.end];
            let next = place + data.len();
            copy::copy(data, &mut out[place..next]);
            place = next;
        }
    }
}

// A buffer of frames, read as a set into `out`.
pub fn read_set(frames: &[u8], out: &mut [u8]) -> Result<Set, Refusal>
    ensures { Promise tell_set (set_of frames.now out.old) result out.new }
{
    let mut met = Gathered::nothing();
    met.gather(frames)?;
    if !met.flags[0] {
        return Err(Refusal::Absent);
    }
    let n = met.first.segments as usize;
    if !met.all_seen(n) {
        return Err(Refusal::Absent);
    }
    let long = met.joined_length(n);
    if out.len() < long {
        return Err(Refusal::OutputSmall);
    }
    met.join(frames, n, out);
    Ok(Set {
        header: met.one,
        length: Bytes(long as u32),
    })
}
