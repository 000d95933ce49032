// The cases of a file: on each line a budget, rules, picks and the listing that they shall have, parted by tabs. `/` stands for LF.
use crate::listed::Expected;
use crate::tally::Tally;
use quote::request::Request;

// A text of the file, with its line ends.
pub fn unfolded(text: &[u8], rt: &HostRuntime) -> anyhow::Result<Vec<u8>> {
    let mut bytes = text.to_vec(rt.alloc())?;
    for byte in &mut bytes {
        if *byte == b'/' {
            *byte = b'\n';
        }
    }
    Ok(bytes)
}

// The number that the digits write; the largest where there are too many.
pub fn number(digits: &[u8]) -> u64 {
    digits.iter().fold(0u64, |number, digit| {
        number
            .saturating_mul(10)
            .saturating_add(digit.wrapping_sub(b'0') as u64)
    })
}

pub fn try_all(rt: &HostRuntime, told: &[u8]) -> anyhow::Result<Tally> {
    let mut tally = Tally::default();
    for line in told.split(|byte| *byte == b'\n') {
        let mut parts = line.split(|byte| *byte == b'\t');
        let budget = parts.next().map_or(0, number);
        if let (Some(rules), Some(picks), Some(listing)) = (
            parts.next(),
            parts.next(),
            parts.next(),
        ) {
            let rules = unfolded(rules, rt)?;
            let picks = unfolded(picks, rt)?;
            let listing = unfolded(listing, rt)?;
            let request = Request {
                rules: &rules,
                picks: &picks,
                budget,
            };
            let expected = Expected {
                request,
                listing: &listing,
            };
            tally.count(expected.comes());
        }
    }
    Ok(tally)
}
