// The last line of a text that comes in pieces.
ghost use Rattle.std.specs.Prelude.{◌≤◌, length};

use arrayvec::ArrayVec;

/// How many bytes of a line are kept.
const KEPT: usize = 512;

/// The last line of a text that comes in pieces, at most its first 512 bytes, without its newline.
#[derive(Drop)]
pub struct Line {
    bytes: ArrayVec<u8, KEPT>,
    /// Its newline was seen: the next byte begins another line.
    is_whole: bool,
}

/// A text without the newline that ends it, if one does.
fn body(text: &[u8]) -> &[u8]
    ensures { length result.now ≤ length text.now }
{
    match text.strip_suffix(b"\n") {
        Some(body) => body,
        None => text,
    }
}

/// Where the last line of a text without newline at its end begins; 0 where all of it is one line.
fn last_start(text: &[u8]) -> usize
    ensures { result ≤ length text.now }
{
    let mut start = text.len();
    while start > 0 {
        if text[start - 1] == b'\n' {
            return start;
        }
        start -= 1;
    }
    0
}

impl Line {
    /// The last line of no text.
    pub fn new() -> Line {
        Line {
            bytes: ArrayVec::new(),
            is_whole: false,
        }
    }

    /// Its bytes.
    pub fn as_slice(&self) -> &[u8] {
        self.bytes.as_slice()
    }

    fn push(&mut self, bytes: &[u8]) {
        let room = KEPT.saturating_sub(self.bytes.len());
        let kept = &bytes[..room.min(bytes.len())];
        let _ = self.bytes.try_extend_from_slice(kept);
    }

    /// Sees some more of the text.
    pub fn see(&mut self, piece: &[u8]) {
        if piece.is_empty() {
            return;
        }
        let body = body(piece);
        let start = last_start(body);
        if self.is_whole || start > 0 {
            self.bytes.clear();
        }
        self.push(&body[start..]);
        self.is_whole = body.len() < piece.len();
    }
}
