//! The first bytes of the files that a command reads, and of standard input, which show their kind. They are kept only
//! for explanations.
use kc_io::Failed;
use std::cell::Cell;

/// How many bytes are kept.
const MAX_KEPT: usize = 64;

/// The first bytes that a source gave.
#[derive(Clone, Copy, Debug)]
pub(crate) struct Look {
    bytes: [u8; MAX_KEPT],
    len: usize,
    was_read: bool,
}

impl Look {
    /// Before the first read.
    pub fn nothing() -> Look {
        Look {
            bytes: [0; MAX_KEPT],
            len: 0,
            was_read: false,
        }
    }

    /// Keeps the first bytes of what a read gave, as far as there is room.
    pub fn note(&mut self, answer: &Result<usize, Failed>, buffer: &[u8]) {
        self.was_read = true;
        let Ok(count) = answer else {
            return;
        };
        if self.len >= MAX_KEPT {
            return;
        }
        for byte in buffer.iter().take(*count) {
            if self.len < MAX_KEPT {
                self.bytes[self.len] = *byte;
                self.len += 1;
            }
        }
    }

    /// Whether there was any read.
    pub fn was_read(&self) -> bool {
        self.was_read
    }

    /// The bytes.
    pub fn bytes(&self) -> &[u8] {
        &self.bytes[..self.len.min(MAX_KEPT)]
    }
}

/// What is known of the files that were read: how many there were, and the first bytes of the last two.
#[derive(Clone, Copy, Debug)]
pub(crate) struct Looks {
    /// How many files were read.
    pub count: usize,
    /// The one before the last.
    pub before: Look,
    /// The last.
    pub last: Look,
    /// Standard input.
    pub input: Look,
}

impl Looks {
    /// Before any file was read.
    pub fn nothing() -> Looks {
        Looks {
            count: 0,
            before: Look::nothing(),
            last: Look::nothing(),
            input: Look::nothing(),
        }
    }

    /// One more file was closed, with these first bytes.
    pub fn add(&mut self, look: &Look) {
        if look.was_read {
            self.count = self.count.saturating_add(1);
            self.before = self.last;
            self.last = *look;
        }
    }
}

/// The first bytes of standard input, which its source keeps, and which are looked at after the command has ended.
#[derive(Drop)]
pub(crate) struct InputLook {
    look: Cell<Look>,
}

impl InputLook {
    /// Before the first read.
    pub fn nothing() -> InputLook {
        InputLook {
            look: Cell::new(Look::nothing()),
        }
    }

    /// Keeps the first bytes of what a read gave.
    pub fn note(&self, answer: &Result<usize, Failed>, buffer: &[u8]) {
        let mut look = self.look.get();
        look.note(answer, buffer);
        self.look.set(look);
    }

    /// What was kept.
    pub fn get(&self) -> Look {
        self.look.get()
    }
}
