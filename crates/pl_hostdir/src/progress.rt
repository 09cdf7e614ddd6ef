//! The line for people that moves while many files are read and written.
use arrayvec::ArrayString;
use std::cell::Cell;
use std::fmt::Write as Format;
use std::io::{self, IsTerminal, Write};
use std::rt::Stderr;

// How many files are read and written before the line is shown, and how many more before each time that it moves.
const STEP: u64 = 32;

// The most bytes of the line.
const WIDTH: usize = 80;

// What goes over the line to clear it.
const BLANK: [u8; WIDTH] = [b' '; WIDTH];

/// A line on standard error that counts files while they are read and written. It is shown on a terminal alone, from 32 files on, and until it ends.
#[derive(Drop)]
pub struct Progress {
    to: Stderr,
    has_ended: Cell<bool>,
    read: Cell<u64>,
    written: Cell<u64>,
    width: Cell<usize>,
}

impl Progress {
    /// No line yet. Where standard error is no terminal there is never one.
    pub fn new(to: Stderr) -> Progress {
        Progress {
            to,
            has_ended: Cell::new(!to.is_terminal()),
            read: Cell::new(0),
            written: Cell::new(0),
            width: Cell::new(0),
        }
    }

    /// A file was read.
    pub fn count_read(&self) {
        self.read.set(self.read.get().saturating_add(1));
        self.step();
    }

    /// A file was written.
    pub fn count_written(&self) {
        self.written.set(self.written.get().saturating_add(1));
        self.step();
    }

    /// Clears the line, which is not shown again.
    pub fn end(&self) {
        self.has_ended.set(true);
        let width = self.width.replace(0).min(WIDTH);
        if width > 0 {
            self.put(b"\r");
            self.put(&BLANK[..width]);
            self.put(b"\r");
        }
    }

    // Shows the line with each step.
    fn step(&self) {
        let files = self.read.get().saturating_add(self.written.get());
        if self.has_ended.get() || files % STEP != 0 {
            return;
        }
        let line = self.line();
        self.width.set(line.as_str().len());
        self.put(b"\r");
        self.put(line.as_str().as_bytes());
    }

    // The line as it stands.
    fn line(&self) -> ArrayString<WIDTH> {
        let mut line = ArrayString::new();
        let read = self.read.get();
        let written = self.written.get();
        let _ = if written == 0 {
            write!(line, "prelink: {read} files read")
        } else {
            write!(line, "prelink: {read} files read, {written} written")
        };
        line
    }

    // Writes bytes to standard error. That it takes none changes nothing.
    fn put(&self, bytes: &[u8]) {
        let mut to = self.to;
        let _ = to.write_all(bytes);
    }
}

/// A writer that ends the line before its first byte, over another one, whose contract it has.
#[derive(Drop)]
pub struct AfterProgress<'p, W: Write> {
    writer: W,
    progress: &'p Progress,
}

impl<'p, W: Write> AfterProgress<'p, W> {
    /// A writer over another one.
    pub fn new(writer: W, progress: &'p Progress) -> AfterProgress<'p, W> {
        AfterProgress { writer, progress }
    }
}

impl<'p, W: Write> Write for AfterProgress<'p, W> {
    ghost contents = { λ after. W.contents after.writer };

    fn write(&mut self, buf: &[u8]) -> io::Result<usize> {
        self.progress.end();
        self.writer.write(buf)
    }

    fn flush(&mut self) -> io::Result<()> {
        self.writer.flush()
    }
}
