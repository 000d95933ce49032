// Places with more room than any bank here has options: what is past the options is not to be read or written.
use crate::random::Random;
use crate::values::{ALL_OPEN, MOST_OPTIONS, Values};

pub const ROOM: usize = MOST_OPTIONS + 3;

pub type Place = [u8; ROOM];

// What a place holds where nothing is to be written; no value either.
pub const UNTOUCHED: u8 = 9;

// The place that nothing was written to.
pub const FRESH: Place = [UNTOUCHED; ROOM];

// The place with these values, of so many options, in front.
pub fn placed(values: &Values, width: usize) -> Place {
    let mut place = FRESH;
    for (to, from) in place.iter_mut().zip(values).take(width) {
        *to = *from;
    }
    place
}

// A values table; how many of the options are open is drawn too.
pub fn draw_values(random: &mut Random, width: usize) -> Values {
    let mut values = ALL_OPEN;
    let percent = random.below(101);
    for value in values.iter_mut().take(width) {
        if !random.chance(percent) {
            *value = random.bit();
        }
    }
    values
}
