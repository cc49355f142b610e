//! Pages of a store that was opened again.
ghost use Rattle.std.specs.Prelude.{◌≡◌, IfOk};
ghost use Rattle.hub_core.specs.PageRoom.{IsRoomFor};

use hub_core::{Config, Hub, PageRoom};
use q_base::Moment;
use std::alloc::Global;
use std::test::Fail;

/// A new hub, in a box, so that letting it go is one call wherever a function may end.
fn new_hub(alloc: Global, config: Config) -> Result<Box<Hub>, Fail>
    ensures { IfOk result (λ hub. hub.value.setting ≡ config) }
{
    Ok(Box::new(alloc, Hub::new(alloc, config)?)?)
}

/// Whether each byte behind the head of the page at a second is this one.
fn shows(hub: &mut Hub, room: &mut PageRoom, second: u64, byte: u8) -> bool
    requires { IsRoomFor hub.old.setting room.old }
    ensures { IsRoomFor hub.new.setting room.new }
{
    hub.fetch(Moment::of(second), room);
    room.bytes().iter().skip(30).all(|found| *found == byte)
}

#[test]
fn a_page_below_the_guard_has_every_bit_set(rt: HostRuntime) -> Result<(), Fail> {
    let alloc = rt.alloc();
    let config = Config::new(10, 6, 1, 60, 100, 65_792)?.kept(1_000);
    let mut room = PageRoom::new(alloc, &config)?;
    let mut hub = new_hub(alloc, config)?;
    assert!(rt; shows(&mut hub, &mut room, 999, 255));
    assert!(rt; shows(&mut hub, &mut room, 1_000, 0));
    Ok(())
}
