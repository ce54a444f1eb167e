use super::*;
use arrayvec::ArrayVec;
use avl_values::{AvlRecord, Codec, Gps, Io, NxList, Width};
use std::test::Fail;

/// A record without elements, at no place.
fn plain(time: u64, priority: u8, event: u16) -> AvlRecord {
    AvlRecord {
        time,
        priority,
        gps: Gps {
            longitude: 0,
            latitude: 0,
            altitude: 0,
            angle: 0,
            satellites: 0,
            speed: 0,
        },
        event,
        generation: 0,
        ios: ArrayVec::new(),
        nx: NxList::new(),
    }
}

fn length_written(codec: Codec, value: &AvlRecord) -> Result<usize, WriteFault> {
    let mut out = ArrayVec::new();
    write_record(codec, value, &mut out)?;
    Ok(out.len())
}

#[test]
fn refusals_in_order(rt: HostRuntime) -> Result<(), Fail> {
    let wide = plain(0, 0, 256);
    let mut long = plain(0, 0, 0);
    assert!(rt; long.nx.push(1, &[0; 213]));
    assert_eq!(rt;
        length_written(Codec::C8, &wide),
        Err(WriteFault::IdTooWide)
    );
    assert_eq!(rt;
        length_written(Codec::C8, &long),
        Err(WriteFault::NotInCodec)
    );
    assert_eq!(rt; length_written(Codec::C8E, &long), Ok(255));
    let io = Io::new(1, Width::W1, 0).ok_or("the value fits its width")?;
    let _added = long.ios.try_push(io);
    assert_eq!(rt; length_written(Codec::C8E, &long), Err(WriteFault::TooLong));
    Ok(())
}

/// Teltonika's own example of Codec 8.
#[test]
fn example_of_codec_8(rt: HostRuntime) -> Result<(), Fail> {
    let mut value = plain(0x16b_40d8_ea30, 1, 1);
    for (id, width, n) in [
        (0x15, Width::W1, 3),
        (0x01, Width::W1, 1),
        (0x42, Width::W2, 0x5e0f),
        (0xf1, Width::W4, 0x601a),
        (0x4e, Width::W8, 0),
    ] {
        let io = Io::new(id, width, n).ok_or("the value fits its width")?;
        let _added = value.ios.try_push(io);
    }
    let mut out = ArrayVec::new();
    assert_eq!(rt; write_record(Codec::C8, &value, &mut out), Ok(()));
    assert_eq!(rt;
        out.as_slice(),
        [
            0x00, 0x00, 0x01, 0x6b, 0x40, 0xd8, 0xea, 0x30, 0x01, 0, 0, 0, 0, 0, 0, 0, 0, 0, 0, 0,
            0, 0, 0, 0, 0x01, 0x05, 0x02, 0x15, 0x03, 0x01, 0x01, 0x01, 0x42, 0x5e, 0x0f, 0x01,
            0xf1, 0x00, 0x00, 0x60, 0x1a, 0x01, 0x4e, 0, 0, 0, 0, 0, 0, 0, 0,
        ]
        .as_slice()
    );
    Ok(())
}

#[test]
fn a_body_holds_42_short_records(rt: HostRuntime) -> Result<(), Fail> {
    let mut out = ArrayVec::new();
    write_record(Codec::C8, &plain(0, 0, 0), &mut out)?;
    assert_eq!(rt; out.len(), 30);
    let mut body = Body::begin(Codec::C8);
    for _ in 0..42 {
        assert!(rt; body.push(out.as_slice()));
    }
    assert!(rt; !body.push(out.as_slice()));
    Ok(())
}
