// What an accepted body of message 31 says, by value: its blocks, a moment by its name, and a gate's code.
#![tactic(auto)]

ghost use Rattle.std.specs.Prelude.{◌≡◌, ◌+◌, ◌-◌, ◌≤◌, length, IfOk};
ghost use Rattle.wire.specs.Numbers.{num, fetched};
ghost use Rattle.wire.specs.Answers.{given, number_of};
ghost use Rattle.wire.specs.Refusals.{number_in};
ghost use Rattle.radial_spec.specs.Description.{constants, most_blocks, moment_head, moment_pointer, Member};
ghost use Rattle.radial_spec.specs.Refusal.{count_in, moments_at, description, radial_of};
ghost use Rattle.radial_spec.specs.Lookups.{moment_of, coded_of, block_of};
ghost use Rattle.radial.specs.Told.{heads_of, tell_radial, shown, tell_moment, head_shown, tell_coded, code_shown};
ghost use Rattle.radial.specs.Told.{block_told, if_any, tell_block, block_shown};
ghost use Rattle.radial.specs.Steps.{span_at, head_at, place_in, tell_place, place_shown, WordThere, code_in, GatesThere, coded_by};
ghost use Rattle.radial.specs.Steps.{constant_pointers, constant_told, moment_told};

use radial_check::{
    CONSTANT_HEAD, CONSTANTS, COUNT_PLACE, ELEVATION_POINTER, FIRST_POINTER, LENGTH_PLACE,
    MOMENT_POINTER, MOST_BLOCKS, RADIAL_POINTER, VOLUME_POINTER, WIDE_WORD,
};
use radial_head::{MOMENT_HEAD, MomentHead};
use radial_heading::Header;
use wire::refusal::Refusal;

// Room for the most moments that the block count allows.
pub const ROOM: usize = (MOST_BLOCKS - CONSTANTS) as usize;

// Where a constant block lies in the body.
#[derive(Clone, Copy)]
pub struct Span {
    pub place: u32,
    pub length: u16,
}

// What an accepted body says. The library has no heap and a caller in C gets every place, so `moments` has a fixed size: `count` says how
// many are there (it counts the constant blocks too), and the places after the last moment hold heads of zeros.
#[derive(Clone, Copy)]
pub struct Radial {
    pub count: u16,
    pub header: Header,
    pub volume: Span,
    pub elevation: Span,
    pub radial: Span,
    pub moments: [MomentHead; ROOM],
}

// A moment's name, as four bytes.
pub type Name = [u8; 4];

// A gate's code, with the head of its moment, which holds scale and offset.
#[derive(Clone, Copy)]
pub struct Coded {
    pub code: u16,
    pub head: MomentHead,
}

// A block's name, place and length.
#[derive(Clone, Copy)]
pub struct Lying {
    pub name: u32,
    pub place: u32,
    pub size: u32,
}

// A block, and of a moment its head.
#[derive(Clone, Copy)]
pub enum RadialBlock {
    Constant(Lying),
    Moment(Lying, MomentHead),
}

// A body that was accepted.
#[derive(Clone, Copy)]
struct Accepted<'a> {
    body: &'a [u8],
    ghost accepted: { radial_of body.now ≡ given (description body.now) },
}

// Checks a body.
fn accept(body: &[u8]) -> Result<Accepted<'_>, Refusal>
    ensures number { number_in result ≡ number_of (radial_of body.now) }
    ensures same { IfOk result (λ a. a.body.now ≡ body.now) }
{
    radial_check::check_radial(body)?;
    Ok(Accepted { body })
}

impl<'a> Accepted<'a> {
    // How many blocks it has.
    fn count(self) -> u32
        ensures is { result ≡ count_in self.entry.body.now }
        ensures few { (constants ≤ result) × (result ≤ most_blocks) }
    {
        wire::fetch::<u16>(self.body, COUNT_PLACE) as u32
    }

    // Where the first moment with a name begins, by the pointers.
    fn moment_place(self, name: u32) -> Option<u32>
        ensures { result ≡ place_in self.entry.body.now name }
    {
        let body = self.body;
        let count = self.count();
        for k in CONSTANTS as u32..count {
            let at = (FIRST_POINTER + 4 * k) as usize;
            let next = at + 4;
            let place = wire::fetch::<u32>(&body[at..next], 0);
            let begin = place as usize;
            let after = begin + 4;
            if wire::fetch::<u32>(&body[begin..after], 0) == name {
                return Some(place);
            }
        }
        None
    }

    // The moments' heads.
    fn all_heads(self) -> [MomentHead; ROOM]
        ensures { result ≡ heads_of (moments_at self.entry.body.now moment_pointer (count_in self.entry.body.now - constants)) }
    {
        let body = self.body;
        let none = MomentHead::default();
        let mut heads = [none; ROOM];
        let count = self.count() - CONSTANTS as u32;
        // By the index, which the pointer's place needs too: the array is then whole at each turn, as the loop's invariant has it.
        for i in 0..count {
            let head = head_at(body, wire::fetch::<u32>(body, MOMENT_POINTER + 4 * i));
            heads[i as usize] = head;
        }
        heads
    }

    // Where a constant block lies, by its pointer.
    fn span_of(self, at: u32) -> Span
        requires { Member at constant_pointers }
        ensures { result ≡ span_at self.entry.body.now at }
    {
        let body = self.body;
        let place = wire::fetch::<u32>(body, at);
        let begin = place as usize;
        let end = begin + CONSTANT_HEAD;
        Span {
            place,
            length: wire::fetch::<u16>(&body[begin..end], LENGTH_PLACE),
        }
    }

    // A constant block, by its pointer.
    fn constant(self, name: &[u8], at: u32) -> RadialBlock
        requires { Member at constant_pointers }
        ensures { block_told result ≡ constant_told (fetched 4 name.now 0) (span_at self.entry.body.now at) }
    {
        let span = self.span_of(at);
        RadialBlock::Constant(Lying {
            name: wire::fetch::<u32>(name, 0),
            place: span.place,
            size: span.length as u32,
        })
    }

    // Block k in pointer order, from 1.
    fn block(self, k: u32) -> Option<RadialBlock>
        ensures { given (if_any result) ≡ block_shown (block_of self.entry.body.now k) }
    {
        let count = self.count();
        if count < k {
            return None;
        }
        // The match is on k itself, since k is what is asked.
        match k {
            0 => None,
            1 => Some(self.constant(b"RVOL", VOLUME_POINTER)),
            2 => Some(self.constant(b"RELV", ELEVATION_POINTER)),
            3 => Some(self.constant(b"RRAD", RADIAL_POINTER)),
            _ => {
                let place = wire::fetch::<u32>(self.body, FIRST_POINTER + 4 * (k - 1));
                Some(moment_block(head_at(self.body, place)))
            }
        }
    }
}

// The head of the moment at a place of the body.
fn head_at(body: &[u8], place: u32) -> MomentHead
    requires { place + moment_head ≤ length body.now }
    ensures { result ≡ head_at body.now place }
{
    let begin = place as usize;
    let end = begin + MOMENT_HEAD;
    radial_head::head_of(&body[begin..end], place)
}

// What a body says. No byte of a gate is read.
pub fn read_radial(body: &[u8]) -> Result<Radial, Refusal>
    ensures { tell_radial result ≡ shown (radial_of body.now) }
{
    let read = radial_heading::read_heading(body)?;
    let accepted = Accepted { body };
    let volume = accepted.span_of(VOLUME_POINTER);
    let elevation = accepted.span_of(ELEVATION_POINTER);
    let radial = accepted.span_of(RADIAL_POINTER);
    let heads = accepted.all_heads();
    Ok(Radial {
        count: read.count,
        header: read.header,
        volume,
        elevation,
        radial,
        moments: heads,
    })
}

// Where the moment with a name begins; "21 moment asked for doesn't exist".
fn place(body: &[u8], name: Name) -> Result<u32, Refusal>
    ensures { tell_place result ≡ place_shown (moment_of body.now (num 4 name 0)) }
{
    let accepted = accept(body)?;
    accepted
        .moment_place(wire::fetch::<u32>(&name, 0))
        .ok_or(Refusal::AskedFor)
}

// The head of the moment with a name.
pub fn moment(body: &[u8], name: Name) -> Result<MomentHead, Refusal>
    ensures { tell_moment result ≡ head_shown (moment_of body.now (num 4 name 0)) }
{
    let begin = place(body, name)?;
    Ok(head_at(body, begin))
}

// The code of a gate: word `gate` after the head of the moment at `place`.
fn code_in(body: &[u8], place: usize, word: u8, gate: usize) -> u16
    requires { WordThere body.now place word gate }
    ensures { result ≡ code_in body.now place word gate }
{
    if word == WIDE_WORD {
        let at = place + (MOMENT_HEAD + gate * 2);
        let end = at + 2;
        return wire::fetch::<u16>(&body[at..end], 0);
    }
    let at = place + (MOMENT_HEAD + gate);
    let end = at + 1;
    wire::fetch::<u8>(&body[at..end], 0) as u16
}

// A gate of the moment with this head.
fn coded_by(body: &[u8], head: MomentHead, gate: usize) -> Result<Coded, Refusal>
    requires { GatesThere body.now head }
    ensures { tell_coded result ≡ coded_by body.now head gate }
{
    if head.gates as usize <= gate {
        return Err(Refusal::AskedFor);
    }
    Ok(Coded {
        code: code_in(body, head.place as usize, head.word, gate),
        head,
    })
}

// The code of a gate (counted from 0) of the moment with a name, and the moment's head.
pub fn code(body: &[u8], name: Name, gate: usize) -> Result<Coded, Refusal>
    ensures { tell_coded result ≡ code_shown (coded_of body.now (num 4 name 0) gate) }
{
    let begin = place(body, name)?;
    coded_by(body, head_at(body, begin), gate)
}

// Block k in pointer order, from 1. A block that does not exist is not a refusal, since no number covers it.
pub fn block(body: &[u8], k: u32) -> Result<Option<RadialBlock>, Refusal>
    ensures { tell_block result ≡ block_shown (block_of body.now k) }
{
    Ok(accept(body)?.block(k))
}

fn moment_block(head: MomentHead) -> RadialBlock
    ensures { block_told result ≡ moment_told head }
{
    let lying = Lying {
        name: head.name,
        place: head.place,
        size: radial_head::moment_size(head.gates, head.word),
    };
    RadialBlock::Moment(lying, head)
}
