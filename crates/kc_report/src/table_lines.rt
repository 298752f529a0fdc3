//! The lines of a source, each ended by a line feed.
ghost use Rattle.kc_report.specs.Lines.{FindsLine};

use kc_gzip::{Intake, TakeFault};
use kc_io::Source;
use memchr::memchr;

// The length of the first line of the unread bytes, with its line end. Blocks are taken until there is a whole line, or
// until the whole text of the source came.
pub(crate) fn first_line<R: Source>(
    reader: &mut R,
    intake: &mut Intake,
) -> Result<Option<usize>, TakeFault>
    ensures { FindsLine (R.seen reader.old) (R.seen reader.new) intake.old intake.new result }
{
    let mut searched = 0;
    'searching: loop {
        let bytes = intake.as_slice();
        let (_, unsearched) = bytes.split_at(searched);
        if let Some(end) = memchr(b'\n', unsearched) {
            return Ok(Some(searched + end + 1));
        }
        searched = bytes.len();
        if !intake.fill(reader)? {
            return Ok(None);
        }
    }
}
