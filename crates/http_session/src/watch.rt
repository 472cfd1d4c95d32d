//! When to look for a head again.
ghost use Rattle.std.specs.Prelude.{◌≡◌, false, [], ◌≤◌, length};
ghost use Rattle.httparse.specs.Grammar.{HasNoRequest};
ghost use Rattle.http_session.specs.Watching.{no_lines, with_byte, may_end, HasSeen, HasNoEnd, HasJudged};

/// How the lines so far stand.
#[derive(Clone, Copy, Debug, PartialEq, Eq)]
pub(crate) struct Lines {
    /// A line has begun, after the empty ones in front.
    has_begun: bool,
    /// The first line has ended.
    has_line: bool,
    /// The line so far has only CR.
    is_empty: bool,
}

impl Lines {
    fn new() -> Lines
        ensures { result ≡ no_lines }
    {
        Lines {
            has_begun: false,
            has_line: false,
            is_empty: true,
        }
    }

    /// The lines with one more byte.
    fn with(self, byte: u8) -> Lines
        ensures { result ≡ with_byte self byte }
    {
        match byte {
            b'\n' => Lines {
                has_begun: self.has_begun,
                has_line: self.has_begun,
                is_empty: true,
            },
            b'\r' => self,
            _ => Lines {
                has_begun: true,
                has_line: self.has_line,
                is_empty: false,
            },
        }
    }

    /// Whether the byte ends the first line or an empty one after it.
    fn may_end(self, byte: u8) -> bool
        ensures { result ≡ may_end self byte }
    {
        byte == b'\n' && (self.has_begun && (self.is_empty || !self.has_line))
    }
}

/// A head is looked for where one may be complete, where its first line is, and each time twice as many bytes have
/// come. So no byte is looked at more than a few times, also where each comes alone, and a bad line is answered soon.
#[derive(Drop)]
pub(crate) struct Watch {
    /// How many bytes were seen.
    seen: usize,
    /// How their lines stand.
    lines: Lines,
    /// The count of bytes at which a head is looked for in any case.
    next: usize,
}

impl Watch {
    pub fn new() -> Watch
        ensures seen { result.seen ≡ 0 }
        ensures lines { result.lines ≡ no_lines }
    {
        Watch {
            seen: 0,
            lines: Lines::new(),
            next: 512,
        }
    }

    /// Looks at the bytes that came since. A head may be complete, or is looked for in any case.
    pub fn is_due(&mut self, bytes: &[u8]) -> bool
        requires seen { HasSeen self.old bytes.now }
        ensures seen { HasSeen self.new bytes.now }
        ensures none { result ≡ false → HasNoEnd self.old.seen bytes.now }
    {
        while self.seen < bytes.len() {
            let byte = bytes[self.seen];
            let is_end = self.lines.may_end(byte);
            self.lines = self.lines.with(byte);
            self.seen += 1;
            if is_end {
                return true;
            }
        }
        if bytes.len() < self.next {
            return false;
        }
        self.next = bytes.len().saturating_mul(2);
        true
    }
}
