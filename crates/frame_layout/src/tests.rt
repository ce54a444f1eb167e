use super::{write_count, write_login};
use avl_values::Imei;
use std::test::Fail;

/// Teltonika's example of a login.
#[test]
fn a_login(rt: HostRuntime) -> Result<(), Fail> {
    let imei = Imei::from_digits(b"356307042441013").ok_or("15 digits")?;
    assert_eq!(rt;
        write_login(imei).as_slice(),
        b"\0\x0f356307042441013".as_slice()
    );
    Ok(())
}

#[test]
fn counts(rt: HostRuntime) -> Result<(), Fail> {
    let rows: [(u8, [u8; 4]); 3] = [(1, [0, 0, 0, 1]), (2, [0, 0, 0, 2]), (255, [0, 0, 0, 255])];
    for (n, bytes) in rows {
        if n > 0 {
            assert_eq!(rt; write_count(n), bytes);
        }
    }
    Ok(())
}
