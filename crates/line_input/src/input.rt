ghost use Rattle.std.specs.Prelude.{◌≡◌, ◌≢◌, true, false, ◌==◌, ◌<◌, ◌≤◌, ◌+◌, [], ◌∷◌, ◌++◌, length, take, IfOk, OnOk, OnErr};
ghost use Rattle.std.specs.Bool.{OnTrue, OnFalse};
ghost use Rattle.std.specs.Io.KnownBytes.{Consumes, IsAtEnd, Keeps};
ghost use Rattle.net_io.specs.Streams.{CanCount};

use net_io::{Failed, Source};

/// The most bytes of a line, without its line feed.
pub const LINE_LIMIT: usize = 512;

/// The most bytes of an input.
pub const INPUT_LIMIT: usize = 16_777_216;

/// The most bytes that are asked for at once.
const PIECE: usize = 4096;

const LINE_FEED: u8 = 10;

/// What was met.
#[derive(Clone, Copy, Debug, PartialEq, Eq)]
pub enum Met {
    /// A line, or one byte more than a line may have.
    Line,
    /// The end of the input, with no byte of a line before it.
    End,
}

/// Why no line was met.
#[derive(Clone, Copy, Debug, PartialEq, Eq)]
pub enum InputFault {
    /// The source failed.
    Read,
    /// The input has more bytes than it may have.
    TooLong,
}

// Reads at most so many bytes to the front of the piece.
fn read_front<S: Source>(source: &mut S, piece: &mut [u8], most: usize) -> Result<usize, Failed>
    requires count { CanCount (S.seen source.old).faults }
    requires some { 0 < most }
    requires fits { most ≤ length piece.old }
    ensures bound { IfOk result (λ n. n ≤ most) }
    ensures bytes { IfOk result
        (λ n. Consumes (S.seen source.old).left (S.seen source.new).left (take n piece.new)) }
    ensures end { IfOk result (λ n. (S.seen source.new).ended ≡ (n == 0)) }
    ensures none_left { IfOk result (λ n. n ≡ 0 → IsAtEnd (S.seen source.new).left) }
    ensures kept { OnOk result ((S.seen source.new).faults ≡ (S.seen source.old).faults) }
    ensures failed { OnErr result ((S.seen source.old).faults < (S.seen source.new).faults) }
    ensures left { OnErr result (Keeps (S.seen source.old).left (S.seen source.new).left) }
    ensures not_ended { OnErr result ((S.seen source.new).ended ≡ false) }
{
    source.read(&mut piece[..most])
}

/// The bytes that a source gave, cut into lines.
#[derive(Drop)]
pub struct Input {
    piece: [u8; 4096],
    at: usize,
    filled: usize,
    given: usize,
    line: [u8; 513],
    length: usize,
    finished: bool,
    pub ghost in_piece: { at ≤ filled },
    pub ghost piece_fits: { filled ≤ 4096 },
    pub ghost line_fits: { length ≤ 513 },
}

impl Input {
    ghost use Rattle.line_input.specs.Lines.{input_limit, line_limit};
    ghost use Rattle.line_input.specs.Looks.{held, line_of, Looks};
    ghost use Rattle.line_input.specs.Steps.{Fills, Takes};

    /// No bytes yet.
    pub fn new() -> Input
        ensures held { held result ≡ [] }
        ensures given { result.given ≡ 0 }
        ensures finished { result.finished ≡ false }
    {
        Input {
            piece: [0; PIECE],
            at: 0,
            filled: 0,
            given: 0,
            line: [0; LINE_LIMIT + 1],
            length: 0,
            finished: false,
        }
    }

    /// The line that was met last.
    pub fn line(&self) -> &[u8]
        ensures { result.now ≡ line_of self.now }
    {
        &self.line[..self.length]
    }

    // The bytes that no line has yet.
    fn held(&self) -> &[u8]
        ensures { result.now ≡ held self.now }
    {
        &self.piece[self.at..self.filled]
    }

    /// Whether the source has ended and no byte is held.
    pub fn is_at_end(&self) -> bool
        ensures yes { OnTrue result ((self.now.finished ≡ true) × (held self.now ≡ [])) }
        ensures no { OnFalse result (self.now.finished ≡ true → held self.now ≢ []) }
    {
        match self.held() {
            [] => self.finished,
            _ => false,
        }
    }

    // Asks for a piece, where no byte is held.
    fn fill<S: Source>(&mut self, source: &mut S) -> Result<usize, InputFault>
        requires count { CanCount (S.seen source.old).faults }
        requires none { self.old.at ≡ self.old.filled }
        requires goes_on { self.old.finished ≡ false }
        requires within { self.old.given ≤ input_limit }
        requires end { self.old.finished ≡ (S.seen source.old).ended }
        ensures { Fills self.old self.new
            (S.seen source.old)
            (S.seen source.new) result }
    {
        let most = PIECE.min((INPUT_LIMIT - self.given).max(1));
        match read_front(source, &mut self.piece, most) {
            Err(_) => Err(InputFault::Read),
            Ok(count) => {
                self.at = 0;
                self.filled = count;
                self.given += count;
                self.finished = count == 0;
                if self.given > INPUT_LIMIT {
                    Err(InputFault::TooLong)
                } else {
                    Ok(count)
                }
            }
        }
    }
    // Takes the first byte that is held.
    fn take_held(&mut self) -> u8
        requires { self.old.at < self.old.filled }
        ensures held { held self.old ≡ result ∷ held self.new }
        ensures given { self.new.given ≡ self.old.given }
        ensures line { line_of self.new ≡ line_of self.old }
        ensures length { self.new.length ≡ self.old.length }
        ensures finished { self.new.finished ≡ self.old.finished }
    {
        let byte = self.piece[self.at];
        self.at += 1;
        byte
    }

    // Takes the next byte, or none at the end of the input.
    fn next_byte<S: Source>(&mut self, source: &mut S) -> Result<Option<u8>, InputFault>
        requires count { CanCount (S.seen source.old).faults }
        requires within { self.old.given ≤ input_limit }
        requires end { self.old.finished ≡ (S.seen source.old).ended }
        requires none_left { (S.seen source.old).ended ≡ true → IsAtEnd (S.seen source.old).left }
        ensures { Takes self.old self.new
            (S.seen source.old)
            (S.seen source.new) result }
    {
        if self.at < self.filled {
            return Ok(Some(self.take_held()));
        }
        if self.finished {
            return Ok(None);
        }
        match self.fill(source)? {
            0 => Ok(None),
            _ => Ok(Some(self.take_held())),
        }
    }
    // Puts a byte at the end of the line.
    fn keep(&mut self, byte: u8)
        requires { self.old.length ≤ line_limit }
        ensures held { held self.new ≡ held self.old }
        ensures given { self.new.given ≡ self.old.given }
        ensures line { line_of self.new ≡ line_of self.old ++ byte ∷ [] }
        ensures length { self.new.length ≡ self.old.length + 1 }
        ensures finished { self.new.finished ≡ self.old.finished }
    {
        self.line[self.length] = byte;
        self.length += 1;
    }

    /// Looks for the next line. The line that was met before is given up.
    pub fn next_line<S: Source>(&mut self, source: &mut S) -> Result<Met, InputFault>
        requires count { CanCount (S.seen source.old).faults }
        requires within { self.old.given ≤ input_limit }
        requires end { self.old.finished ≡ (S.seen source.old).ended }
        requires none_left { (S.seen source.old).ended ≡ true → IsAtEnd (S.seen source.old).left }
        ensures { Looks (held self.old) self.old.given self.new
            (S.seen source.old)
            (S.seen source.new) result }
    {
        self.length = 0;
        while self.length <= LINE_LIMIT {
            match self.next_byte(source) {
                Err(fault) => return Err(fault),
                Ok(None) if self.length == 0 => return Ok(Met::End),
                Ok(None) => return Ok(Met::Line),
                Ok(Some(LINE_FEED)) => return Ok(Met::Line),
                Ok(Some(byte)) => self.keep(byte),
            }
        }
        Ok(Met::Line)
    }
}
