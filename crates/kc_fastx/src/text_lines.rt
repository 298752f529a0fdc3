//! The lines of a byte string, taken one after another.
ghost use Rattle.std.specs.Prelude.{◌≡◌, ◌+◌, [], ◌∷◌, IfSome, IfNone};
ghost use Rattle.kc_fastx.specs.Lines.{line_count, skip_blanks, Passes};
ghost use Rattle.kc_fastx.specs.Titles.{title_at};

use memchr::memchr;
use std::marker::Model;

// A reader of lines. Its view is the number of the lines that were taken, the lines that are left, and the bytes that
// are left.
#[derive(Drop)]
pub struct LineCursor<'a> {
    pub(crate) left: &'a [u8],
    pub(crate) taken: u64,
}

impl<'a> Model for LineCursor<'a> {
    ghost use Rattle.std.specs.Prelude.{◌+◌, ◌^◌, ◌<◌, length};
    ghost use Rattle.kc_fastx.specs.Lines.{Cursor, lines};

    ghost Value = { Cursor };

    ghost view = { λ c. record { taken = c.taken; left = lines c.left.now; bytes = c.left.now } };

    // Each line that was taken had at least one byte.
    ghost invariant = { λ c. c.taken + length c.left.now < 2 ^ 64 };
}

impl<'a> LineCursor<'a> {
    // Takes the next line, if one is left.
    pub(crate) fn next_line(&mut self) -> Option<&'a [u8]>
        ensures none { IfNone result (self.old.left ≡ []) }
        ensures unchanged { IfNone result (self.new ≡ self.old) }
        ensures some { IfSome result (λ line. self.old.left ≡ line.now ∷ self.new.left) }
        ensures taken { IfSome result (λ line. self.new.taken ≡ self.old.taken + 1) }
        ensures passes { IfSome result (λ line. Passes self.old self.new) }
    {
        if self.left.is_empty() {
            return None;
        }
        let bytes = self.left;
        let line = match memchr(b'\n', bytes) {
            Some(end) => {
                self.left = &bytes[end + 1..];
                &bytes[..end]
            }
            None => {
                self.left = &[];
                bytes
            }
        };
        self.taken += 1;
        match line {
            // one carriage return belongs to the line end
            [front @ .., b'\r'] => Some(front),
            _ => Some(line),
        }
    }

    // The next line without its first byte; empty if no line is left.
    pub(crate) fn title(&self) -> &'a [u8]
        ensures { result.now ≡ title_at self.now.left }
    {
        let mut ahead = LineCursor { ..*self };
        match ahead.next_line() {
            Some([_, title @ ..]) => title,
            _ => &[],
        }
    }

    // Skips blank lines.
    pub(crate) fn pass_blanks(&mut self)
        ensures left { self.new.left ≡ skip_blanks self.old.left }
        ensures counted { line_count self.new ≡ line_count self.old }
        ensures passes { Passes self.old self.new }
    {
        loop {
            let mut ahead = LineCursor { ..*self };
            match ahead.next_line() {
                Some([]) => *self = ahead,
                _ => return,
            }
        }
    }
}
