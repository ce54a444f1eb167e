use acquisition::{Acquirer, Fix, Settings};
use arrayvec::ArrayVec;
use avl_values::{Codec, Gps};
use io_operands::{IoSetting, Operand};

/// Seven elements that are carried, and one that makes a record where it changes.
fn settings() -> Option<Settings> {
    let carried = IoSetting {
        id: 1,
        width: 8,
        operand: Operand::Monitoring,
        low: 0,
        high: 0,
        priority: 0,
    };
    let mut ios = [carried; 8];
    ios[3].operand = Operand::Change;
    Settings::check(Codec::C8E, 10_000, 0, 0, 0, &ios).ok()
}

/// The fix of a second.
fn fix_at(second: u64) -> Fix {
    let mut fix = Fix {
        time: second.wrapping_mul(1_000),
        gps: Gps {
            longitude: 252_797_000,
            latitude: 546_872_000,
            altitude: 112,
            angle: (second % 360) as u16,
            satellites: 9,
            speed: 50,
        },
        odometer: second.wrapping_mul(14),
        values: ArrayVec::new(),
    };
    for _ in 0..8 {
        let _added = fix.values.try_push(second / 500);
    }
    fix
}

/// Acquires over N fixes, a second apart, with eight I/O settings; the fixes, and how many records came.
pub fn acquire(fixes: u64) -> Option<(u64, u64)> {
    let mut acquirer = Acquirer::new(settings()?);
    let mut records: u64 = 0;
    for second in 0..fixes {
        let fix = fix_at(second);
        if acquirer.settings().fits(&fix) {
            records = records.saturating_add(acquirer.fix(&fix).len() as u64);
        }
    }
    Some((fixes, records))
}
