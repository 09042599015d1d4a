use crate::streams::{Failed, Sink, Source, WriteFault};
use std::io::{Read, Write};

/// A reader of std, with a count of its faults. It tells what the reader tells: nothing, over standard input.
#[derive(Drop)]
pub struct StdSource<R> {
    reader: R,
    faults: u64,
    ended: bool,
}

impl<R: Read> StdSource<R> {
    ghost use Rattle.std.specs.Prelude.{◌≡◌, false};

    /// The reader as a source.
    pub fn new(reader: R) -> StdSource<R>
        ensures reader { result.reader ≡ reader }
        ensures faults { result.faults ≡ 0 }
        ensures end { result.ended ≡ false }
    {
        StdSource {
            reader,
            faults: 0,
            ended: false,
        }
    }
}

impl<R: Read> Source for StdSource<R> {
    ghost seen = { λ s. record {
      left = R.remaining s.reader;
      faults = s.faults;
      ended = s.ended;
    } };

    fn read(&mut self, room: &mut [u8]) -> Result<usize, Failed> {
        match self.reader.read(room) {
            Ok(count) => {
                if !room.is_empty() {
                    self.ended = count == 0;
                }
                Ok(count)
            }
            Err(_) => {
                if !room.is_empty() {
                    self.ended = false;
                }
                self.faults += 1;
                Err(Failed)
            }
        }
    }
}

/// A writer of std, with a count of its faults. Taking nothing of some bytes is a fault; it never runs out of memory.
#[derive(Drop)]
pub struct StdSink<W> {
    writer: W,
    faults: u64,
}

impl<W: Write> StdSink<W> {
    ghost use Rattle.std.specs.Prelude.{◌≡◌};

    /// The writer as a sink.
    pub fn new(writer: W) -> StdSink<W>
        ensures writer { result.writer ≡ writer }
        ensures faults { result.faults ≡ 0 }
    {
        StdSink { writer, faults: 0 }
    }
}

impl<W: Write> Sink for StdSink<W> {
    ghost seen = { λ s. record { bytes = W.contents s.writer; faults = s.faults } };

    fn write(&mut self, piece: &[u8]) -> Result<usize, WriteFault> {
        match self.writer.write(piece) {
            Ok(count) if count > 0 || piece.is_empty() => Ok(count),
            _ => {
                self.faults += 1;
                Err(WriteFault::Failed)
            }
        }
    }
}
