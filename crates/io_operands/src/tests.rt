use super::*;
use std::test::Fail;

fn fired(operand: Operand, values: [u64; 4]) -> [bool; 4] {
    let mut watch = Watch::new(IoSetting {
        id: 1,
        width: 1,
        operand,
        low: 5,
        high: 15,
        priority: 0,
    });
    let mut fired = [false; 4];
    for i in 0..4 {
        fired[i] = watch.fired(values[i]);
    }
    fired
}

#[test]
fn operands_over_four_values(rt: HostRuntime) -> Result<(), Fail> {
    let rows: [(Operand, [bool; 4]); 6] = [
        (Operand::Hysteresis, [false, true, false, true]),
        (Operand::Exit, [false, true, false, true]),
        (Operand::Entrance, [false, false, true, false]),
        (Operand::Both, [false, true, true, true]),
        (Operand::Change, [false, true, true, true]),
        (Operand::Monitoring, [false, false, false, false]),
    ];
    for (operand, wanted) in rows {
        assert_eq!(rt; fired(operand, [10, 16, 12, 4]), wanted);
    }
    Ok(())
}

#[test]
fn generations(rt: HostRuntime) -> Result<(), Fail> {
    assert_eq!(rt; Operand::Exit.generation(), 0);
    assert_eq!(rt; Operand::Hysteresis.generation(), 4);
    assert_eq!(rt; Operand::Monitoring.generation(), 7);
    Ok(())
}
