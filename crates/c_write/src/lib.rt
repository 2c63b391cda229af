// The writer of frames, as C calls it.
#![tactic(auto)]

ghost use Rattle.writer.specs.Writing.{write_of};
ghost use Rattle.c_lent.specs.Face.{Leaves, written_face};

use c_lent::UlmWritten;
use wire::refusal::Refusal;
use writer_head::Given;

pub fn write(
    channel: u8,
    kind: u8,
    sequence: u16,
    date: u16,
    ms: u32,
    body: &[u8],
    out: &mut [u8],
) -> UlmWritten
    ensures { Leaves written_face (write_of (record { channel = channel; kind = kind; sequence = sequence; date = date; milliseconds = ms }) body.now out.old) result out.new }
{
    let given = Given {
        channel,
        kind,
        sequence,
        date,
        milliseconds: ms,
    };
    c_lent::written_face(writer::write_message(given, body, out).map_err(Refusal::number))
}
