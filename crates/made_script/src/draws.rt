//! What is drawn for a made script.
ghost use Rattle.std.specs.Prelude.{◌≡◌, ◌<◌, ◌≤◌};
ghost use Rattle.made_script.specs.Draws.{draw, drawn_event, drawn_turn, event_of, tear_at};

use crate::turn::{Event, Turn};
use medium_model::Tear;
use rand_core::utils::NextWord;
use rand_pcg::Pcg32;

/// The next word modulo `n`.
#[tactic(auto, unfolding(crate::specs::Draws::draw))]
fn draw(generator: &mut Pcg32, n: u32) -> u32
    requires { 0 < n }
    ensures drawn { result ≡ (draw n generator.old).0 }
    ensures next { generator.new ≡ (draw n generator.old).1 }
    ensures below { result < n }
{
    generator.next_word() % n
}

fn tear_at(number: u32) -> Tear
    ensures { result ≡ tear_at number }
{
    match number {
        0 => Tear::Keep,
        1 => Tear::New,
        2 => Tear::Zero,
        3 => Tear::AllOpen,
        _ => Tear::Half,
    }
}

#[tactic(auto, unfolding(crate::specs::Draws::drawn_event))]
fn draw_event(generator: &mut Pcg32) -> Event
    ensures drawn { result ≡ (drawn_event generator.old).0 }
    ensures next { generator.new ≡ (drawn_event generator.old).1 }
{
    let number = draw(generator, 16);
    event_of(generator, number)
}

/// The event of this number.
#[tactic(auto, unfolding(crate::specs::Draws::event_of))]
fn event_of(generator: &mut Pcg32, number: u32) -> Event
    ensures drawn { result ≡ (event_of number generator.old).0 }
    ensures next { generator.new ≡ (event_of number generator.old).1 }
{
    match number {
        0..=3 => Event::WholeRound {
            piece: 1 + draw(generator, 64),
        },
        4 => {
            let (piece, up) = (1 + draw(generator, 64), draw(generator, 200));
            Event::CutRound { piece, up }
        }
        5 => Event::Power,
        6 => Event::DeviceFuse {
            calls: u64::from(draw(generator, 8)),
            tear: tear_at(draw(generator, 5)),
        },
        7 => Event::ServerFuse {
            calls: u64::from(draw(generator, 4)),
            tear: tear_at(draw(generator, 5)),
        },
        _ => Event::Nothing,
    }
}

/// A turn of one of N devices.
#[tactic(auto, unfolding(crate::specs::Draws::drawn_turn))]
pub fn draw_turn(generator: &mut Pcg32, devices: u32) -> Turn
    requires least { 1 ≤ devices }
    requires most { devices ≤ 64 }
    ensures drawn { result ≡ (drawn_turn devices generator.old).0 }
    ensures next { generator.new ≡ (drawn_turn devices generator.old).1 }
{
    Turn {
        device: 1 + draw(generator, devices),
        speed: draw(generator, 120),
        bend: draw(generator, 31),
        east: draw(generator, 1_000_000),
        north: draw(generator, 1_000_000),
        ignition: u32::from(draw(generator, 8) != 0),
        voltage: 10_000 + draw(generator, 6000),
        event: draw_event(generator),
    }
}
