//! A device over a stream: its records in order, sent again until their count was heard.
use crate::plans::{CONNECTIONS, Ending, Plan, RECORDS, plan_of};
use crate::server::SILENCE_SECONDS;
use arrayvec::ArrayVec;
use avl_values::Imei;
use frame_channel::{Link, send, write_frame, write_login};
use record_codecs::read_packet;
use std::alloc::Global;
use std::net::{SocketAddr, TcpStream};
use std::time::Duration;
use tcp_edge::{StreamLink, prepare};

type Stream = StreamLink<TcpStream>;

/// A device: how many of its records were counted, the first ones, and how its connections went.
#[derive(Clone, Copy, Debug, Drop)]
pub struct Device {
    pub imei: Imei,
    pub counted: u64,
    pub cut: u64,
    pub unheard: u64,
    pub whole: u64,
}

/// The device of a number, which has sent nothing.
pub fn new_device(number: u64) -> Option<Device> {
    let imei = Imei::from_number(number.saturating_add(350_000_000_000_000))?;
    Some(Device {
        imei,
        counted: 0,
        cut: 0,
        unheard: 0,
        whole: 0,
    })
}

/// The Codec 8 record of this number, without elements. Its time is the number, and its other fields are 0.
pub fn record(number: u64) -> [u8; 30] {
    let mut bytes = [0; 30];
    bytes[..8].copy_from_slice(&number.to_be_bytes());
    bytes
}

// How many records the frame has that begins with this one: 1 to 5, and none after the last.
fn batch(first: u64) -> u8 {
    let wanted = 1 + first % 5;
    let left = RECORDS.saturating_sub(first);
    if left < wanted {
        left as u8
    } else {
        wanted as u8
    }
}

// The data body of this many records from this one on.
fn body(alloc: Global, first: u64, count: u8) -> Option<Vec<u8>> {
    let mut bytes = Vec::from_slice(alloc, &[8, count]).ok()?;
    for i in 0..count {
        bytes
            .extend_from_slice(&record(first.saturating_add(u64::from(i))))
            .ok()?;
    }
    bytes.push(count).ok()?;
    Some(bytes)
}

// The frame of a body that is judged whole.
fn framed(body: &[u8]) -> Option<ArrayVec<u8, 1280>> {
    if body.len() > 1268 {
        return None;
    }
    let Ok(_head) = read_packet(body) else {
        return None;
    };
    let mut out = ArrayVec::new();
    write_frame(body, &mut out);
    Some(out)
}

// The next byte of a link.
fn hear(link: &mut Stream) -> Option<u8> {
    let mut byte = [0];
    match link.read(&mut byte) {
        Ok(1) => Some(byte[0]),
        _ => None,
    }
}

// The next count.
fn hear_count(link: &mut Stream) -> Option<u32> {
    let bytes = [hear(link)?, hear(link)?, hear(link)?, hear(link)?];
    Some(u32::from_be_bytes(bytes))
}

// A link on which this device's login was sent.
fn with_login(rt: &HostRuntime, address: SocketAddr, imei: Imei) -> Option<Stream> {
    let stream = TcpStream::connect(rt, address).ok()?;
    prepare(&stream, Duration::from_secs(SILENCE_SECONDS));
    let mut link = StreamLink::new(stream, None);
    send(&mut link, &write_login(imei)).ok()?;
    Some(link)
}

// A link on which this device has logged in.
fn logged_in(rt: &HostRuntime, address: SocketAddr, imei: Imei) -> Option<Stream> {
    let mut link = with_login(rt, address, imei)?;
    if hear(&mut link)? == 1 {
        Some(link)
    } else {
        None
    }
}

/// What is answered to this device's logins on two connections, both of which are there until both answers are heard.
pub fn two_answers(rt: &HostRuntime, address: SocketAddr, imei: Imei) -> Option<[u8; 2]> {
    let mut first = with_login(rt, address, imei)?;
    let mut second = with_login(rt, address, imei)?;
    Some([hear(&mut first)?, hear(&mut second)?])
}

impl Device {
    // The frame of its next records.
    fn frame(&self, alloc: Global) -> Option<ArrayVec<u8, 1280>> {
        let body = body(alloc, self.counted, batch(self.counted))?;
        framed(&body)
    }

    // Sends its next records, and hears their count.
    fn send_some(&mut self, alloc: Global, link: &mut Stream) -> Option<()> {
        send(link, &self.frame(alloc)?).ok()?;
        let some = batch(self.counted);
        if hear_count(link)? != u32::from(some) {
            return None;
        }
        self.counted = self.counted.saturating_add(u64::from(some));
        Some(())
    }

    // Sends at most this many frames.
    fn send_frames(&mut self, alloc: Global, link: &mut Stream, frames: u64) -> Option<()> {
        for _ in 0..frames {
            if batch(self.counted) > 0 {
                self.send_some(alloc, link)?;
            }
        }
        Some(())
    }

    // Sends the first bytes of the next frame.
    fn break_off(&mut self, alloc: Global, link: &mut Stream, bytes: u64) -> Option<()> {
        let frame = self.frame(alloc)?;
        let front = frame.get(..bytes as usize)?;
        send(link, front).ok()?;
        self.cut = self.cut.saturating_add(1);
        Some(())
    }

    // Sends the next frame, and hears the first bytes of its count.
    fn hear_part(&mut self, alloc: Global, link: &mut Stream, bytes: u64) -> Option<()> {
        send(link, &self.frame(alloc)?).ok()?;
        for _ in 0..bytes {
            hear(link)?;
        }
        self.unheard = self.unheard.saturating_add(1);
        Some(())
    }

    // One connection. None where it didn't go as planned.
    fn connect(
        &mut self,
        rt: &HostRuntime,
        alloc: Global,
        address: SocketAddr,
        plan: Plan,
    ) -> Option<()> {
        let mut link = logged_in(rt, address, self.imei)?;
        self.send_frames(alloc, &mut link, plan.frames)?;
        match plan.ending {
            Ending::HangsUp => {
                self.whole = self.whole.saturating_add(1);
                Some(())
            }
            Ending::Cut(bytes) => self.break_off(alloc, &mut link, bytes),
            Ending::Unheard(bytes) => self.hear_part(alloc, &mut link, bytes),
        }
    }

    /// All its connections, one after the other, each as planned for the device of this place.
    pub fn run(&mut self, rt: &HostRuntime, alloc: Global, address: SocketAddr, place: usize) {
        for connection in 0..CONNECTIONS {
            let _ = self.connect(rt, alloc, address, plan_of(place, connection));
        }
    }
}
