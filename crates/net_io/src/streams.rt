ghost use Rattle.std.specs.Prelude.{◌≡◌, ◌<◌, ◌≤◌, IfOk, OnOk, OnErr, length, alloc_error};
ghost use Rattle.std.specs.Io.{ReadsAtMost, WritesAtMost};
ghost use Rattle.std.specs.Io.KnownBytes.{ReadConsumes, WriteAppends};
ghost use Rattle.net_io.specs.Streams.{CanCount, SinkView, SourceView, ended_after};

use std::alloc::AllocError;

/// A call that failed.
#[derive(Clone, Copy, Debug, PartialEq, Eq)]
pub struct Failed;

/// Why a write took nothing.
#[derive(Debug, Drop)]
pub enum WriteFault {
    Failed,
    Memory(AllocError),
}

/// Where bytes come from.
pub trait Source {
    /// What contracts see of it.
    ghost seen: { Self → SourceView };

    /// Puts the next bytes at the front of the room, and says how many. A read that fails takes none of them.
    fn read(&mut self, room: &mut [u8]) -> Result<usize, Failed>
        requires { CanCount ((seen self.old).faults) }
        ensures bound { ReadsAtMost result room.new }
        ensures bytes { ReadConsumes (seen self.old).left (seen self.new).left result room.new }
        ensures kept { OnOk result ((seen self.new).faults ≡ (seen self.old).faults) }
        ensures failed { OnErr result ((seen self.old).faults < (seen self.new).faults) }
        ensures end { (seen self.new).ended ≡ ended_after (seen self.old).ended room.new result };
}

/// Where bytes go.
pub trait Sink {
    /// What contracts see of it.
    ghost seen: { Self → SinkView };

    /// Takes the first bytes of the piece, and says how many: at least one of a piece that isn't empty. After an error
    /// none was taken.
    fn write(&mut self, piece: &[u8]) -> Result<usize, WriteFault>
        requires { CanCount ((seen self.old).faults) }
        ensures bound { WritesAtMost result piece.now }
        ensures bytes { WriteAppends (seen self.old).bytes (seen self.new).bytes result piece.now }
        ensures takes { IfOk result (λ n. 0 < length piece.now → 1 ≤ n) }
        ensures kept { OnOk result ((seen self.new).faults ≡ (seen self.old).faults) }
        ensures failed { result ≡ Err WriteFault.Failed
            → (seen self.old).faults < (seen self.new).faults }
        ensures memory { result ≡ Err (WriteFault.Memory alloc_error)
            → (seen self.new).faults ≡ (seen self.old).faults };
}
