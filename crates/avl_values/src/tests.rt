use super::*;
use arrayvec::ArrayVec;
use std::test::Fail;

#[test]
fn ample_memory_is_enough(rt: HostRuntime) -> Result<(), Fail> {
    let record = WideRec::new(rt.alloc(), Codec::C8, &[0; 30])?;
    let copy = record.try_clone()?;
    assert_eq!(rt; copy.codec(), Codec::C8);
    assert_eq!(rt; copy.bytes(), record.bytes());

    let mut wide = WideList::new(rt.alloc());
    wide.push(copy)?;
    assert_eq!(rt; wide.len(), 1);

    let mut records = RecList::new(rt.alloc());
    records.push(Rec {
        codec: Codec::C16,
        bytes: ArrayVec::new(),
    })?;
    assert_eq!(rt; records.len(), 1);

    let mut bytes = ByteList::new(rt.alloc());
    bytes.push(7)?;
    bytes.extend_from_slice(&[8, 9])?;
    assert_eq!(rt; bytes.as_slice(), [7, 8, 9].as_slice());
    Ok(())
}

#[test]
fn imei_of_15_digits(rt: HostRuntime) -> Result<(), Fail> {
    let imei = Imei::from_digits(b"356307042441013").ok_or("15 digits")?;
    assert_eq!(rt; imei.number(), 356307042441013);
    assert_eq!(rt; imei.digits().as_slice(), b"356307042441013".as_slice());
    assert_eq!(rt; Imei::from_digits(b"35630704244101A"), None);
    assert_eq!(rt; Imei::from_digits(b"35630704244101"), None);
    assert_eq!(rt; Imei::from_number(1_000_000_000_000_000), None);
    Ok(())
}
