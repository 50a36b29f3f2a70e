//! What histories and the instrumenter know of a location.

ghost use Rattle.std.specs.Prelude.{◌≡◌, ◌<◌, length, slice_index};
ghost use Rattle.mon_events.specs.Ops.{op_of};
ghost use Rattle.mon_code.specs.Sites as spec;

use crate::program::{Location, Program};
use mon_events::{Event, Slot, main_event, op_of_number};

/// What is known of a location beside what is done there.
#[derive(Clone, Copy, Debug, PartialEq, Eq)]
pub struct Site {
    /// The number of its code.
    pub code: u16,
    pub offset: u32,
    /// The base opcode.
    pub base: u8,
    /// Whether a LINE event may occur there.
    pub is_marked: bool,
    /// The event of the MAIN slot.
    pub main: Option<Event>,
    /// The event of the spare slot: there is none.
    pub spare: Option<Event>,
}

// The event of the MAIN slot at a base opcode with this argument.
fn event_of(base: u8, argument: u32) -> Option<Event>
    ensures { result ≡ spec.event_of (op_of base) argument }
{
    main_event(op_of_number(base)?, argument)
}

impl Site {
    ghost use Rattle.std.specs.Prelude.{◌≡◌, ◌<◌};
    ghost use Rattle.mon_code.specs.Sites as spec;

    /// The site of a location of a code, by its index there and its base opcode.
    pub fn new(code: u16, index: u32, location: &Location, base: u8) -> Site
        requires { index < 65536 }
        ensures { result ≡ spec.site_in code index location.now base }
    {
        Site {
            code,
            offset: 2 * index,
            base,
            is_marked: location.is_marked,
            main: event_of(base, location.argument),
            spare: None,
        }
    }

    /// The event whose bits a slot of the location has, if it has one.
    pub fn event(&self, slot: Slot) -> Option<Event>
        ensures { result ≡ spec.slot_event self.now slot }
    {
        match slot {
            Slot::Line => self.is_marked.then_some(Event::Line),
            Slot::Instruction => Some(Event::Instruction),
            Slot::Main => self.main,
            Slot::Spare => self.spare,
        }
    }
}

impl Program {
    ghost use Rattle.std.specs.Prelude.{◌≡◌, ◌<◌, length, slice_index};
    ghost use Rattle.mon_code.specs.Sites as spec;

    /// The site of a location, whose base opcode is given.
    pub fn site(&self, location: u32, base: u8) -> Site
        requires within { location < length self.now.bases }
        requires base { base ≡ slice_index self.now.bases location }
        ensures { result ≡ spec.site_at (spec.sites_of self.now) location }
    {
        let _ = self.locations();
        let (code, index) = self.place(location);
        let found = match self.code(code) {
            None => unreachable!(),
            Some(found) => found,
        };
        match found.locations.get(index as usize) {
            None => unreachable!(),
            Some(at) => Site::new(code, index, at, base),
        }
    }
}
