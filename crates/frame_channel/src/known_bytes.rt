//! Bytes that are known to be such.
ghost use Rattle.std.specs.Prelude.{◌≡◌};
ghost use Rattle.layout.specs.Bytes.{AreBytes};

/// The same bytes.
pub fn known_bytes(bytes: &[u8]) -> &[u8]
    ensures same { result.now ≡ bytes.now }
    ensures bytes { AreBytes bytes.now }
{
    bytes
}
