// A window of the text that is held while several words are read from it.

ghost use Rattle.std.specs.Prelude.{◌≡◌, ◌≤◌, ◌<◌, ◌+◌, ◌-◌, ◌*◌, ◌%◌, ◌^◌, ℕ, ◌↔◌, IsTrue, []};
ghost use Rattle.bit_pipe.specs.SourceState.{source_state, IsIn, Takes};
ghost use Rattle.bit_pipe.specs.Windows.{first_of};

use bit_pipe::{BitIn, OctetIn};

// The number of bits that a window has, if it is there.
const HELD: u8 = 56;

// How many bits were read of a window that is not there.
const NONE: u8 = 128;

// A window of the text, what is left of it after the bits that were read, and how many these are.
#[derive(Clone, Copy)]
pub(crate) struct Cursor {
    window: u64,
    pub rest: u64,
    used: u8,
}

impl Cursor {
    ghost use Rattle.plane_reader.specs.Held.{Holds, Stays, point, read_of, has_left};

    // A cursor without a window.
    pub const CLOSED: Cursor = Cursor {
        window: 0,
        rest: 0,
        used: NONE,
    };

    // Returns a cursor at the bits that are next, with a window of them if there is one.
    #[inline(always)]
    pub fn open<I: OctetIn>(input: &BitIn<I>) -> Cursor
        requires { IsIn (source_state input.now) }
        ensures holds { Holds I.source (source_state input.now) result }
        ensures none { read_of result ≡ [] }
    {
        match input.window() {
            Some(window) => Cursor {
                window,
                rest: window,
                used: 0,
            },
            None => Cursor::CLOSED,
        }
    }

    // Takes from the input what was read of the window, and lets the window go.
    #[inline(always)]
    pub fn close<I: OctetIn>(&mut self, input: &mut BitIn<I>)
        requires is_in { IsIn (source_state input.old) }
        requires holds { Holds I.source (source_state input.old) self.old }
        ensures stays { Stays I.source (point (source_state input.old) self.old) (point (source_state input.new) self.new) }
        ensures is_in { IsIn (source_state input.new) }
        ensures holds { Holds I.source (source_state input.new) self.new }
        ensures none { read_of self.new ≡ [] }
        ensures closed { 56 < self.new.used }
        ensures kept { read_of self.old ≡ [] → source_state input.new ≡ source_state input.old }
    {
        if self.used > 0 && self.used <= HELD {
            input.take_window(self.window, self.used);
        }
        *self = Cursor::CLOSED;
    }

    // Returns whether the window has this number of bits left, and moves it on if it has not.
    #[inline(always)]
    pub fn need<I: OctetIn>(&mut self, input: &mut BitIn<I>, count: u8) -> bool
        requires count { count ≤ 56 }
        requires is_in { IsIn (source_state input.old) }
        requires holds { Holds I.source (source_state input.old) self.old }
        ensures stays { Stays I.source (point (source_state input.old) self.old) (point (source_state input.new) self.new) }
        ensures is_in { IsIn (source_state input.new) }
        ensures holds { Holds I.source (source_state input.new) self.new }
        ensures has { IsTrue result ↔ has_left count self.new }
        ensures kept { has_left count self.old → self.new ≡ self.old }
    {
        if self.used > HELD - count {
            self.close(input);
            *self = Cursor::open(input);
        }
        self.used <= HELD - count
    }

    // Passes some bits that the window has.
    #[inline(always)]
    pub fn pass(&mut self, count: u8)
        requires count { count < 64 }
        requires left { has_left count self.old }
        ensures used { self.new.used ≡ self.old.used + count }
        ensures window { self.new.window ≡ self.old.window }
        ensures rest { self.new.rest ≡ self.old.rest * 2 ^ count % 2 ^ 64 }
    {
        self.rest <<= count;
        self.used += count;
    }
}
