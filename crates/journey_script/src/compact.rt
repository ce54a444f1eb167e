use acquisition::Fix;
use avl_values::{Codec, Gps, Imei, Order};
use io_operands::IoSetting;
use std::boxed::Box;
use trial_model::{ScriptLine, Tear, Who};

/// A fix as a script keeps it: a `Fix` has room for 32 values, also where it has none.
#[derive(Drop)]
pub struct CompactFix {
    pub time: u64,
    pub gps: Gps,
    pub odometer: u64,
    pub values: Vec<u64>,
}

/// A line as a script keeps it, in about 50 bytes; a `ScriptLine` takes 320, since a `Fix` has room for 32 values.
#[derive(Drop)]
pub enum CompactLine {
    Device {
        imei: Imei,
        codec: Codec,
        slots: u16,
        order: Order,
        period: u64,
        distance: u64,
        angle: u16,
        speed: u16,
        known: bool,
    },
    Setting {
        imei: Imei,
        setting: IoSetting,
    },
    Fix {
        imei: Imei,
        fix: Box<CompactFix>,
    },
    Round {
        imei: Imei,
        piece: u32,
        up: Option<u32>,
        down: Option<u32>,
    },
    Drain {
        imei: Imei,
        piece: u32,
    },
    Late {
        connection: u32,
        bytes: Option<u32>,
    },
    Close {
        connection: u32,
    },
    Power {
        who: Who,
    },
    Fuse {
        who: Who,
        calls: u64,
        tear: Tear,
    },
}

/// A line with its number in the text, from 1.
#[derive(Drop)]
pub struct NumberedLine {
    pub number: u32,
    pub line: CompactLine,
}
