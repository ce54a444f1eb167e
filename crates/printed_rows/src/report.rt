use avl_values::{ByteList, Codec, Imei, NoMemory, Rec, RecList, WideList, WideRec};
use fmb_text::report_text;
use std::alloc::Global;
use text_streams::refused_text;
use trial_model::{ConnectionOutcome, DeviceEnd, DeviceOutcome, Outcome, ServerEnd};

fn zeros(alloc: Global, count: usize) -> Result<ByteList, NoMemory> {
    Ok(ByteList::from_vec(vec![in alloc; 0u8; count]?))
}

fn device(alloc: Global, imei: Imei) -> Result<DeviceOutcome, NoMemory> {
    let mut acquired = RecList::new(alloc);
    acquired.push(Rec::new(Codec::C8E, b"\x01\x6b\xd8"))?;
    let mut archived = WideList::new(alloc);
    archived.push(WideRec::new(alloc, Codec::C16, b"")?)?;
    Ok(DeviceOutcome {
        imei,
        acquired,
        cut: RecList::new(alloc),
        overwritten: RecList::new(alloc),
        flash: RecList::new(alloc),
        archived,
    })
}

fn sample(alloc: Global, imei: Imei) -> Result<Outcome, NoMemory> {
    let mut outcome = Outcome::new(alloc);
    outcome.push_device(device(alloc, imei)?)?;
    let ends = [
        (62, 5, 4, DeviceEnd::Broken, ServerEnd::Ended),
        (
            62,
            1,
            1,
            DeviceEnd::Broken,
            ServerEnd::MediumFault { faults: 1 },
        ),
        (17, 1, 1, DeviceEnd::Refused, ServerEnd::Unknown { imei }),
        (0, 0, 0, DeviceEnd::Empty, ServerEnd::Ended),
        (
            62,
            5,
            5,
            DeviceEnd::Done(1),
            ServerEnd::EndedInside { have: 20 },
        ),
    ];
    for (up, down, delivered, device, server) in ends {
        outcome.push_connection(ConnectionOutcome {
            imei,
            up: zeros(alloc, up)?,
            up_given: up as u64,
            down: zeros(alloc, down)?,
            down_given: delivered,
            device,
            server,
        })?;
    }
    Ok(outcome)
}

#[test]
fn report_is_as_written_down(rt: HostRuntime) {
    let imei = Imei::from_digits(b"356307042441013").expect(&rt, "15 digits");
    let outcome = sample(rt.alloc(), imei).expect(&rt, "an outcome");
    let full = report_text(rt.alloc(), &outcome, false).expect(&rt, "a report");
    let lines = "\
device 356307042441013 acquired 1 cut 0 overwritten 0 flash 0 archived 1
acquired 356307042441013 8E 016bd8
archived 356307042441013 16 \n\
connection 1 356307042441013 device broken server ended up 62 62 down 5 4
connection 2 356307042441013 device broken server medium up 62 62 down 1 1
connection 3 356307042441013 device refused server unknown up 17 17 down 1 1
connection 4 356307042441013 device empty server ended up 0 0 down 0 0
connection 5 356307042441013 device done 1 server inside 20 up 62 62 down 5 5
";
    assert_eq!(rt; full.as_slice(), lines.as_bytes());
    let brief = report_text(rt.alloc(), &outcome, true).expect(&rt, "a report");
    let lines = "\
device 356307042441013 acquired 1 cut 0 overwritten 0 flash 0 archived 1
connections 5
";
    assert_eq!(rt; brief.as_slice(), lines.as_bytes());
    let refused = refused_text(rt.alloc(), 2, "UnknownWord").expect(&rt, "a line");
    assert_eq!(rt;
        refused.as_slice(),
        b"refused line 2 UnknownWord\n".as_slice()
    );
}
