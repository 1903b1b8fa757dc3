//! Texts, written to a sink.

ghost use Rattle.std.specs.Prelude.{◌++◌};
ghost use Rattle.std.specs.List.{flat_map};
ghost use Rattle.tenths.specs.Sink.{Writes};
ghost use Rattle.tenths.specs.Text.{line, spaced, tenths_text};

use crate::sink::Sink;
use crate::value::Tenths;
use itoa::{Buffer, Integer};
use thiserror::Error;

/// A sink failed while a text was written.
#[derive(Clone, Copy, Debug, PartialEq, Eq, Error)]
#[error("a sink failed")]
pub struct Device;

/// Writes all of a text. `Device` where the sink failed: then it took a beginning of the text.
pub fn write_text<W: Sink>(text: &[u8], sink: &mut W) -> Result<(), Device>
    ensures { Writes (W.held sink.old) (W.held sink.new) result text.now }
{
    let mut rest = text;
    while !rest.is_empty() {
        match sink.write(rest) {
            Ok(count) => rest = rest.split_at(count).1,
            Err(_) => return Err(Device),
        }
    }
    Ok(())
}

/// Writes the pieces of a text, one after another. `Device` as for `write_text`.
pub fn write_pieces<W: Sink>(pieces: &[&[u8]], sink: &mut W) -> Result<(), Device>
    ensures { Writes (W.held sink.old) (W.held sink.new)
        result (flat_map (λ piece. piece.now) pieces.now) }
{
    for piece in pieces {
        write_text(piece, sink)?;
    }
    Ok(())
}

/// Writes each number after a space. `Device` as for `write_text`.
fn write_numbers<N: Integer, W: Sink>(numbers: &[N], sink: &mut W) -> Result<(), Device>
    ensures { Writes (W.held sink.old) (W.held sink.new)
        result (flat_map (λ n. spaced (N.text n)) numbers.now) }
{
    for number in numbers {
        let mut buffer = Buffer::new();
        write_pieces(&[b" ", buffer.format(*number).as_bytes()], sink)?;
    }
    Ok(())
}

/// Writes a line: its first pieces one after another, and then each number after a space. `Device`
/// as for `write_text`.
pub fn write_number_line<N: Integer, W: Sink>(
    front: &[&[u8]],
    numbers: &[N],
    sink: &mut W,
) -> Result<(), Device>
    ensures { Writes (W.held sink.old) (W.held sink.new) result
        (line (flat_map (λ piece. piece.now) front.now ++ flat_map
        (λ n. spaced (N.text n)) numbers.now)) }
{
    write_pieces(front, sink)?;
    write_numbers(numbers, sink)?;
    write_text(b"\n", sink)
}

/// Writes a number of tenths as its whole part, a point and one digit. `Device` as for `write_text`.
pub fn write_tenths<W: Sink>(tenths: Tenths, sink: &mut W) -> Result<(), Device>
    ensures { Writes (W.held sink.old) (W.held sink.new) result (tenths_text tenths) }
{
    let count = tenths.get();
    let mut whole = Buffer::new();
    let mut digit = Buffer::new();
    write_pieces(
        &[
            whole.format(count / 10).as_bytes(),
            b".",
            digit.format(count % 10).as_bytes(),
        ],
        sink,
    )
}

/// Writes a line: its front, and then a number of tenths. `Device` as for `write_text`.
pub fn write_tenths_line<W: Sink>(front: &[u8], tenths: Tenths, sink: &mut W) -> Result<(), Device>
    ensures { Writes (W.held sink.old) (W.held sink.new)
        result (line (front.now ++ tenths_text tenths)) }
{
    write_text(front, sink)?;
    write_tenths(tenths, sink)?;
    write_text(b"\n", sink)
}
