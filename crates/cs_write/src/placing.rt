//! Writes bytes into a buffer that has room.

ghost use Rattle.std.specs.Prelude.{◌≡◌, ◌+◌, ◌≤◌, length};
ghost use Rattle.cs_write.specs.Buffer.{laid};

/// Writes these bytes at `at`, in one copy, and returns the index after them. Does not change the
/// other bytes.
#[tactic(auto, unfolding(crate::specs::Buffer::laid))]
pub fn put_bytes(out: &mut [u8], at: usize, bytes: &[u8]) -> usize
    requires { at + length bytes.now ≤ length out.old }
    ensures end { result ≡ at + length bytes.now }
    ensures bytes { out.new ≡ laid at bytes.now out.old }
{
    let end = at + bytes.len();
    out[at..end].copy_from_slice(bytes);
    end
}
