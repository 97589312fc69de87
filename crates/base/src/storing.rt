// Runs of bytes that every layer above stores and takes out of byte strings. All are total: what lies outside is not
// written, and a run that does not lie inside is taken as zeros.
ghost use Rattle.std.specs.Prelude.{◌≡◌};
ghost use Rattle.base.specs.Bytes.{at};
ghost use Rattle.base.specs.Storing.{Stored, run_at};

// Stores the bytes of `src` from `at` on, as many as there is room for, and answers the place past them.
pub fn put(out: &mut [u8], at: usize, src: &[u8]) -> usize
    ensures { Stored out.old at src.now result out.new }
{
    if out.len() <= at {
        return at;
    }
    let count = src.len().min(out.len() - at);
    // Byte by byte: `copy_from_slice` would make the archive for C ask for `memmove`, which C callers need not have.
    for i in 0..count {
        out[at + i] = src[i];
    }
    at + count
}

// The byte at an index, and 0 past the end.
pub fn byte_at(bytes: &[u8], i: usize) -> u8
    ensures { result ≡ at bytes.now i }
{
    bytes.get(i).copied().unwrap_or(0)
}

// The `N` bytes from `at` on; zeros where there are not so many.
#[tactic(auto, unfolding(crate::specs::Storing::run_at))]
pub fn run_at<const N: usize>(bytes: &[u8], at: usize) -> [u8; N]
    ensures { result ≡ run_at N bytes.now at }
{
    bytes
        .get(at..)
        .and_then(<[u8]>::first_chunk)
        .copied()
        .unwrap_or([0; N])
}
