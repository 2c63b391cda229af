// What stands before a segment's data: the session's 12 bytes and the header's 16.
#![tactic(auto)]

ghost use Rattle.std.specs.Prelude.{◌≡◌, ◌^◌, ◌<◌};
ghost use Rattle.header_rule.specs.Rules.{too_large};
ghost use Rattle.writer_head.specs.Head.{heads};
ghost use Rattle.writer_head.specs.Steps.{size_written, high_written, low_written};

use header_rule::{LONG_MARK, MOST_SIZE};
use wire::{Bytes, Halfwords};

// The values that every segment repeats. `kind` is the type of Table I: `type` is a keyword.
#[derive(Clone, Copy)]
pub struct Given {
    pub channel: u8,
    pub kind: u8,
    pub sequence: u16,
    pub date: u16,
    pub milliseconds: u32,
}

pub const HEADS: usize = frame::HEAD + header::HEADER;

// The bytes before the data of segment k of n. The message with its header has `size` bytes.
pub fn heads_of(given: Given, n: u16, k: u16, size: Bytes) -> [u8; HEADS]
    ensures { result ≡ heads given n k size }
{
    let half = wire::to_halfwords(size);
    let mut head = [0u8; HEADS];
    wire::store::<u32>(&mut head, 0, frame::DATA);
    wire::store::<u32>(&mut head, 8, size.0);
    wire::store::<u16>(&mut head, 12, size_field(half));
    head[14] = given.channel;
    head[15] = given.kind;
    wire::store::<u16>(&mut head, 16, given.sequence);
    wire::store::<u16>(&mut head, 18, given.date);
    wire::store::<u32>(&mut head, 20, given.milliseconds);
    wire::store::<u16>(&mut head, 24, high_field(n, half));
    wire::store::<u16>(&mut head, 26, low_field(k, half));
    head
}

// Whether the short form cannot hold a size.
fn is_long(size: Halfwords) -> bool
    ensures { result ≡ too_large size }
{
    MOST_SIZE < size.0
}

// The size's field: the size, or the mark of the long form where the field cannot hold it.
fn size_field(size: Halfwords) -> u16
    ensures { result ≡ size_written size }
{
    if is_long(size) {
        return LONG_MARK as u16;
    }
    size.0 as u16
}

// The two segment fields: N and the number, or in the long form the high and the low half of the length in bytes.
fn high_field(n: u16, size: Halfwords) -> u16
    requires { size.0 < 2 ^ 31 }
    ensures { result ≡ high_written n size }
{
    if is_long(size) {
        return (size.0 * 2 / 65536) as u16;
    }
    n
}

fn low_field(k: u16, size: Halfwords) -> u16
    requires { size.0 < 2 ^ 31 }
    ensures { result ≡ low_written k size }
{
    if is_long(size) {
        return (size.0 * 2 % 65536) as u16;
    }
    k
}
