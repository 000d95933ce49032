// Values tables and builds of the small banks here, in places of one size; the places past a bank's options hold 2 and false.

// No bank here has more options, so that all its builds can be tried.
pub const MOST_OPTIONS: usize = 7;

// The value of an option that has none yet.
pub const OPEN: u8 = 2;

pub type Values = [u8; MOST_OPTIONS];

pub type Build = [bool; MOST_OPTIONS];

// The table in which every option is open.
pub const ALL_OPEN: Values = [OPEN; MOST_OPTIONS];

// The value of an option; past the table every option is open.
pub fn value_of(values: &Values, option: usize) -> u8 {
    values.get(option).copied().unwrap_or(OPEN)
}

// The table with this value at the option.
pub fn with_value(values: &Values, option: usize, value: u8) -> Values {
    let mut changed = *values;
    if let Some(place) = changed.get_mut(option) {
        *place = value;
    }
    changed
}

// The build as 0 and 1.
pub fn digits(build: &Build) -> Values {
    build.map(u8::from)
}

// Whether the build agrees with every 0 and every 1 of the table.
pub fn agrees(values: &Values, build: &Build) -> bool {
    values
        .iter()
        .zip(build)
        .all(|(value, bit)| *value == OPEN || *value == *bit as u8)
}
