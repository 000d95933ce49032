// A good order with one byte replaced by each of the 256, or cut short at each place. The file has the rules and the picks on its first
// two lines; then the listings in turn, each with how often it comes in a row: bytes of the rules, of the picks, cuts of the rules, of the picks.
use crate::cases::{number, unfolded};
use crate::listed::Expected;
use crate::tally::Tally;
use quote::request::Request;
use texts::faults::Text;

const BUDGET: u64 = 1000000;

// What is done to the order.
#[derive(Clone, Copy, Drop)]
enum Change {
    Byte { text: Text, at: usize, byte: u8 },
    Cut { text: Text, length: usize },
}

// The change with this number, for texts of so many bytes.
fn numbered(number: usize, rules: usize, picks: usize) -> Change {
    let at = number / 256;
    let byte = (number % 256) as u8;
    if at < rules {
        return Change::Byte {
            text: Text::Rules,
            at,
            byte,
        };
    }
    let at = at - rules;
    if at < picks {
        return Change::Byte {
            text: Text::Picks,
            at,
            byte,
        };
    }
    let length = 256 * (at - picks) + byte as usize;
    if length <= rules {
        return Change::Cut {
            text: Text::Rules,
            length,
        };
    }
    Change::Cut {
        text: Text::Picks,
        length: length - rules - 1,
    }
}

// The text, changed if it is the one.
fn changed(rt: &HostRuntime, bytes: &[u8], which: Text, change: Change) -> anyhow::Result<Vec<u8>> {
    let mut bytes = bytes.to_vec(rt.alloc())?;
    match change {
        Change::Byte { text, at, byte } if text == which => {
            if let Some(there) = bytes.get_mut(at) {
                *there = byte;
            }
        }
        Change::Cut { text, length } if text == which => bytes.truncate(length),
        _ => {}
    }
    Ok(bytes)
}

pub fn try_all(rt: &HostRuntime, told: &[u8]) -> anyhow::Result<Tally> {
    let mut tally = Tally::default();
    let mut lines = told.split(|byte| *byte == b'\n');
    let rules = unfolded(lines.next().unwrap_or(b""), rt)?;
    let picks = unfolded(lines.next().unwrap_or(b""), rt)?;
    let mut tried = 0;
    for line in lines {
        let mut parts = line.split(|byte| *byte == b'\t');
        let count = parts.next().map_or(0, number);
        let listing = unfolded(parts.next().unwrap_or(b""), rt)?;
        for _ in 0..count {
            let now = numbered(tried, rules.len(), picks.len());
            tried = tried.saturating_add(1);
            let rules = changed(rt, &rules, Text::Rules, now)?;
            let picks = changed(rt, &picks, Text::Picks, now)?;
            let request = Request {
                rules: &rules,
                picks: &picks,
                budget: BUDGET,
            };
            let expected = Expected {
                request,
                listing: &listing,
            };
            tally.count(expected.comes());
        }
    }
    Ok(tally)
}
