//! A whole text written to a sink, and flushed.
ghost use Rattle.std.specs.Prelude.{◌≡◌};
ghost use Rattle.kc_io.specs.Sinks.{HandsOver, Writes};

use crate::failures::Failed;
use crate::sinks::Sink;

/// Hands all of the bytes to the writer, which may keep them until it is flushed.
///
/// # Errors
/// `Failed` if the writer failed or took no byte. It took a beginning of the bytes.
pub fn write_all<W: Sink>(writer: &mut W, bytes: &[u8]) -> Result<(), Failed>
    ensures handed_over { HandsOver (W.seen writer.old) (W.seen writer.new) result bytes.now }
    ensures unflushed { (W.seen writer.new).history.flushed ≡ (W.seen writer.old).history.flushed }
{
    let mut rest = bytes;
    while !rest.is_empty() {
        match writer.write(rest) {
            Ok(0) => return Err(Failed),
            Ok(n) => {
                let (_, left) = rest.split_at(n);
                rest = left;
            }
            Err(Failed) => return Err(Failed),
        }
    }
    Ok(())
}

/// Writes the bytes: hands all of them to the writer, and flushes it.
///
/// # Errors
/// `Failed` if the writer failed or took no byte, or could not be flushed. It took a beginning of the bytes.
pub fn write_out<W: Sink>(writer: &mut W, bytes: &[u8]) -> Result<(), Failed>
    ensures { Writes (W.seen writer.old) (W.seen writer.new) result bytes.now }
{
    write_all(writer, bytes)?;
    writer.flush()
}
