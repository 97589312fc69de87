// Whether there is room for an answer of several bytes.
ghost use Rattle.std.specs.Prelude.{◌≡◌};
ghost use Rattle.frame_c.specs.CStored.{stored_in};

use frame::refusals::{BUFFER_TOO_SHORT, Refusal};

// What was found, 7 where there is no room for its bytes.
pub(crate) fn fitted<T: Copy>(
    found: Result<T, Refusal>,
    bytes: usize,
    room: usize,
) -> Result<T, Refusal>
    ensures { result ≡ stored_in found bytes room }
{
    let value = found?;
    if room < bytes {
        return Err(Refusal::of(BUFFER_TOO_SHORT));
    }
    Ok(value)
}
