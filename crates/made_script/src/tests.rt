use crate::made_text::MADE;
use crate::make_script;
use journey_script::write_script;
use std::test::Fail;

// The first ten lines by hand, from docs/FORMATS.md, "Made scripts". Lines 1 to 6 are those of the devices 1 (codec `8`) and 2 (`8E`); none
// is drawn. PCG32
// from the seed 1 has the state abe6195e8b284ec0 and the increment 2e78ce42f83b9c89, and its first words are:
//
//     866585574   modulo 2        0, device 1                     line 7: the time is 1560000001000
//     2109535214  modulo 120      14, the speed; odometer 4
//     3403630417  modulo 31       18, the angle
//     296513984   modulo 1000000  513984, longitude 250513984
//     4177522235  modulo 1000000  522235, latitude 546522235
//     689909480   modulo 8        0, ignition 0
//     3719081784  modulo 6000     5784, voltage 15784
//     441867712   modulo 16       0, a whole round
//     3688506836  modulo 64       20, P is 21                     line 8
//     221168536   modulo 2        0, device 1                     line 9: the time is 1560000002000
//     1681321507  modulo 120      67, the speed; odometer 4 + 22
//     1272359636  modulo 31       7, angle 18 + 7
//     3233537623  modulo 1000000  537623, longitude 250537623
//     36791650    modulo 1000000  791650, latitude 546791650
//     1289198517  modulo 8        5, ignition 1
//     3612014308  modulo 6000     2308, voltage 12308
//     102065742   modulo 16       14, nothing
//     1026741763  modulo 2        1, device 2                     line 10: the time is 1560000003000
//     1712699061  modulo 120      21, the speed; odometer 7
//     2343390805  modulo 31       24, the angle
//     443936016   modulo 1000000  936016, longitude 250936016
//     430566143   modulo 1000000  566143, latitude 546566143
//     2589660759  modulo 8        7, ignition 1
//     1037220807  modulo 6000     807, voltage 10807
//     1401271423  modulo 16       15, nothing
#[test]
fn the_script_of_a_seed(rt: HostRuntime) -> Result<(), Fail> {
    let script = make_script(rt.alloc(), 1, 2, 100)?;
    let text = write_script(rt.alloc(), &script)?;
    assert_eq!(rt; text.as_slice(), MADE.as_bytes());
    Ok(())
}
