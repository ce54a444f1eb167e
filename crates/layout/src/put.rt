//! Bytes after those that a buffer holds.
ghost use Rattle.std.specs.Prelude.{◌≡◌, ◌≤◌, ◌+◌, ◌++◌, length};
ghost use Rattle.arrayvec.specs.ArrayVec.{array_vec_len};
ghost use Rattle.layout.specs.Bytes.{AreBytes};

use arrayvec::ArrayVec;

/// Appends these bytes, for which there is room.
pub fn put_all<const N: usize>(out: &mut ArrayVec<u8, N>, bytes: &[u8])
    requires { array_vec_len out.old + length bytes.now ≤ N }
    ensures bytes { out.new.items ≡ out.old.items ++ bytes.now }
    ensures len { array_vec_len out.new ≡ array_vec_len out.old + length bytes.now }
    ensures fit { AreBytes bytes.now }
{
    // There is room, so that nothing is refused.
    let _added = out.try_extend_from_slice(bytes);
}
