use super::*;
use arrayvec::ArrayVec;
use avl_values::{Codec, Gps, Rec};
use io_operands::{IoSetting, Operand};
use std::process::Abort;
use std::test::Fail;

fn setting(width: u8) -> IoSetting {
    IoSetting {
        id: 1,
        width,
        operand: Operand::Monitoring,
        low: 0,
        high: 0,
        priority: 0,
    }
}

fn fault(codec: Codec, ios: &[IoSetting]) -> Option<SettingFault> {
    Settings::check(codec, 0, 0, 0, 0, ios).err()
}

#[test]
fn faults_of_settings(rt: HostRuntime) -> Result<(), Fail> {
    let wide = [setting(8); 33];
    let third = [setting(1), setting(3)];
    let rows: [(Codec, usize, Option<u32>); 7] = [
        (Codec::C8, 32, Some(318)),
        (Codec::C8, 25, None),
        (Codec::C8E, 21, None),
        (Codec::C8E, 22, Some(258)),
        (Codec::C16, 22, None),
        (Codec::C16, 23, Some(262)),
        (Codec::C8, 0, None),
    ];
    for (codec, n, bytes) in rows {
        assert!(rt; n <= 32);
        let wanted = bytes.map(|bytes| SettingFault::RecordTooLong { bytes });
        assert_eq!(rt; fault(codec, &wide[..n]), wanted);
    }
    assert_eq!(rt; fault(Codec::C8, &wide), Some(SettingFault::TooMany));
    assert_eq!(rt;
        fault(Codec::C8, &third),
        Some(SettingFault::BadWidth { index: 1 })
    );
    let wide_id = [IoSetting {
        id: 256,
        ..setting(1)
    }];
    assert_eq!(rt;
        fault(Codec::C8, &wide_id),
        Some(SettingFault::IdTooWide { index: 0 })
    );
    assert_eq!(rt; fault(Codec::C16, &wide_id), None);
    Ok(())
}

// Whether a fix with these values fits two settings, of one byte and of two.
fn fits(settings: &Settings, values: &[u64]) -> bool {
    let mut fix = fix(0, 0, 0, 0);
    let _added = fix.values.try_extend_from_slice(values);
    settings.fits(&fix)
}

#[test]
fn values_that_fit(rt: HostRuntime) -> Result<(), Fail> {
    let settings = Settings::check(Codec::C8, 0, 0, 0, 0, &[setting(1), setting(2)])?;
    assert!(rt; fits(&settings, &[0xff, 0xffff]));
    assert!(rt; !fits(&settings, &[0x100, 0]));
    assert!(rt; !fits(&settings, &[0, 0x1_0000]));
    assert!(rt; !fits(&settings, &[0]));
    assert!(rt; !fits(&settings, &[0, 0, 0]));
    Ok(())
}

fn fix(time: u64, angle: u16, speed: u16, odometer: u64) -> Fix {
    Fix {
        time,
        gps: Gps {
            longitude: 0,
            latitude: 0,
            altitude: 0,
            angle,
            satellites: 5,
            speed,
        },
        odometer,
        values: ArrayVec::new(),
    }
}

/// The records of a fix that has as many values as there are settings.
fn records(rt: &impl Abort, acquirer: &mut Acquirer, fix: &Fix) -> ArrayVec<Rec, 32> {
    assert!(rt; acquirer.settings().fits(fix));
    acquirer.fix(fix)
}

#[test]
fn distances_and_speeds(rt: HostRuntime) -> Result<(), Fail> {
    let far = Settings::check(Codec::C8, 0, 100, 0, 0, &[])?;
    let mut acquirer = Acquirer::new(far);
    for (odometer, wanted) in [(0, 1), (99, 0), (100, 1), (199, 0), (0, 1)] {
        assert_eq!(rt;
            records(&rt, &mut acquirer, &fix(0, 0, 0, odometer)).len(),
            wanted
        );
    }
    let fast = Settings::check(Codec::C8, 0, 0, 0, 10, &[])?;
    let mut acquirer = Acquirer::new(fast);
    for (speed, wanted) in [(20, 1), (29, 0), (30, 1), (21, 0), (20, 1)] {
        assert_eq!(rt;
            records(&rt, &mut acquirer, &fix(0, 0, speed, 0)).len(),
            wanted
        );
    }
    Ok(())
}

#[test]
fn angles_the_shorter_way_round(rt: HostRuntime) -> Result<(), Fail> {
    let settings = Settings::check(Codec::C16, 0, 0, 10, 0, &[])?;
    let mut acquirer = Acquirer::new(settings);
    let mut last = ArrayVec::new();
    for (time, angle, speed, wanted) in [
        (0x16b_40d8_ea30, 359, 50, 1),
        (0x16b_40d8_ee18, 1, 50, 0),
        (0x16b_40d8_f200, 9, 50, 1),
        (0x16b_40d8_f5e8, 30, 4, 0),
    ] {
        let made = records(&rt, &mut acquirer, &fix(time, angle, speed, 0));
        assert_eq!(rt; made.len(), wanted);
        if made.len() == 1 {
            last = made;
        }
    }
    assert_eq!(rt; last.len(), 1);
    assert_eq!(rt;
        last.as_slice()[0].bytes.as_slice(),
        [
            0x00, 0x00, 0x01, 0x6b, 0x40, 0xd8, 0xf2, 0x00, 0x00, 0, 0, 0, 0, 0, 0, 0, 0, 0, 0,
            0x00, 0x09, 0x05, 0x00, 0x32, 0x00, 0x00, 0x07, 0x00, 0x00, 0x00, 0x00, 0x00,
        ]
        .as_slice()
    );
    Ok(())
}

#[test]
fn a_changed_value_makes_a_record(rt: HostRuntime) -> Result<(), Fail> {
    let ios = [IoSetting {
        id: 239,
        operand: Operand::Change,
        priority: 1,
        ..setting(1)
    }];
    let settings = Settings::check(Codec::C8E, 0, 0, 0, 0, &ios)?;
    let mut acquirer = Acquirer::new(settings);
    let mut last = ArrayVec::new();
    for (time, value, wanted) in [
        (0x16b_40d8_ea30, 0, 1),
        (0x16b_40d8_ee18, 1, 1),
        (0x16b_40d8_f200, 1, 0),
    ] {
        let mut fix = fix(time, 0, 0, 0);
        fix.gps.satellites = 0;
        let _added = fix.values.try_push(value);
        let made = records(&rt, &mut acquirer, &fix);
        assert_eq!(rt; made.len(), wanted);
        if made.len() == 1 {
            last = made;
        }
    }
    assert_eq!(rt; last.len(), 1);
    assert_eq!(rt;
        last.as_slice()[0].bytes.as_slice(),
        [
            0x00, 0x00, 0x01, 0x6b, 0x40, 0xd8, 0xee, 0x18, 0x01, 0, 0, 0, 0, 0, 0, 0, 0, 0, 0, 0,
            0, 0, 0, 0, 0x00, 0xef, 0x00, 0x01, 0x00, 0x01, 0x00, 0xef, 0x01, 0x00, 0x00, 0x00,
            0x00, 0x00, 0x00, 0x00, 0x00,
        ]
        .as_slice()
    );
    acquirer.power_up();
    let mut again = fix(0x16b_40d8_f200, 0, 0, 0);
    let _added = again.values.try_push(1);
    assert_eq!(rt; records(&rt, &mut acquirer, &again).len(), 1);
    Ok(())
}
