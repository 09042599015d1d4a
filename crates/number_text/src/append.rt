ghost use Rattle.std.specs.Prelude.{[], ◌∷◌};
ghost use Rattle.number_text.specs.Appends.{Appends};

use std::alloc::AllocError;

/// Appends one byte.
pub fn append_byte(byte: u8, out: &mut Vec<u8>) -> Result<(), AllocError>
    ensures { Appends out.old out.new result (byte ∷ []) }
{
    out.push(byte)?;
    Ok(())
}

/// Appends these bytes.
pub fn append_bytes(text: &[u8], out: &mut Vec<u8>) -> Result<(), AllocError>
    ensures { Appends out.old out.new result text.now }
{
    out.extend_from_slice(text)
}
