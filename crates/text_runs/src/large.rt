// Tables and texts at their limits and one past them: rows, roots, clauses, groups, bytes of the rules and of the picks.
use crate::listed::{Expected, UNTOUCHED};
use crate::tally::Tally;
use quote::request::Request;

const BUDGET: u64 = 1000000;

const WIDTH: &[u8] = b"W     3\n";

// A text with one line many times: the lines before it, the line, how often it stands, and the lines after it.
#[derive(Clone, Copy, Drop)]
struct Repeated<'a> {
    before: &'a [u8],
    line: &'a [u8],
    times: usize,
    after: &'a [u8],
}

impl<'a> Repeated<'a> {
    fn text(&self, rt: &HostRuntime) -> anyhow::Result<Vec<u8>> {
        let mut text = self.before.to_vec(rt.alloc())?;
        for _ in 0..self.times {
            text.extend_from_slice(self.line)?;
        }
        text.extend_from_slice(self.after)?;
        Ok(text)
    }
}

fn comes(rules: &[u8], picks: &[u8], listing: &[u8]) -> bool {
    let request = Request {
        rules,
        picks,
        budget: BUDGET,
    };
    let expected = Expected { request, listing };
    expected.comes()
}

// A table that is full, and one with one line too many.
fn try_table(
    rt: &HostRuntime,
    tally: &mut Tally,
    full: Repeated<'_>,
    listing: &[u8],
    fault: &[u8],
) -> anyhow::Result<()> {
    let rules = full.text(rt)?;
    tally.count(comes(&rules, b"", listing));
    let over = Repeated {
        times: full.times.saturating_add(1),
        after: b"",
        ..full
    };
    let rules = over.text(rt)?;
    tally.count(comes(&rules, b"", fault));
    Ok(())
}

fn try_tables(rt: &HostRuntime, tally: &mut Tally) -> anyhow::Result<()> {
    let rows = Repeated {
        before: WIDTH,
        line: b"N     2     0     1\n",
        times: 2048,
        after: b"D  2049\n",
    };
    try_table(
        rt,
        tally,
        rows,
        b"O     0     0\nO     1     0\nO     2     1\n",
        b"F     1     2  2050    12\n",
    )?;
    let roots = Repeated {
        before: WIDTH,
        line: b"D     1\n",
        times: 128,
        after: b"",
    };
    try_table(
        rt,
        tally,
        roots,
        b"O     0     0\nO     1     0\nO     2     0\n",
        b"F     1     2   130    12\n",
    )?;
    let clauses = Repeated {
        before: WIDTH,
        line: b"C     1     3\n",
        times: 512,
        after: b"",
    };
    try_table(
        rt,
        tally,
        clauses,
        b"O     0     0\nO     1     1\nO     2     0\n",
        b"F     1     2   514    12\n",
    )?;
    let groups = Repeated {
        before: WIDTH,
        line: b"K     1     1     1     2\n",
        times: 64,
        after: b"",
    };
    try_table(
        rt,
        tally,
        groups,
        b"O     0     0\nO     1     0\nO     2     1\n",
        b"F     1     2    66    12\n",
    )
}

// Rules of exactly 49,152 bytes: 8 of the width, 512 clauses of 92, 40 groups of 32 and 20 of 38.
fn longest_rules(rt: &HostRuntime) -> anyhow::Result<Vec<u8>> {
    let clause =
        b"C    14     1     1     1     1     1     1     1     1     1     1     1     1     1     1\n";
    let clauses = Repeated {
        before: WIDTH,
        line: clause,
        times: 512,
        after: b"",
    }
    .text(rt)?;
    let pairs = Repeated {
        before: &clauses,
        line: b"K     0     2     2     0     1\n",
        times: 40,
        after: b"",
    }
    .text(rt)?;
    Repeated {
        before: &pairs,
        line: b"K     1     1     3     0     1     2\n",
        times: 20,
        after: b"",
    }
    .text(rt)
}

fn try_texts(rt: &HostRuntime, tally: &mut Tally) -> anyhow::Result<()> {
    let mut rules = longest_rules(rt)?;
    tally.count(rules.len() == 49152);
    tally.count(comes(
        &rules,
        b"",
        b"O     0     1\nO     1     0\nO     2     0\n",
    ));
    rules.push(b'\n')?;
    tally.count(comes(&rules, b"", b"F     1     1     0    24\n"));
    let longest = Repeated {
        before: b"",
        line: b"P",
        times: 4096,
        after: b"",
    }
    .text(rt)?;
    tally.count(comes(WIDTH, &longest, b"F     2     1     1    22\n"));
    let longer = Repeated {
        before: b"",
        line: b"P",
        times: 4097,
        after: b"",
    }
    .text(rt)?;
    tally.count(comes(WIDTH, &longer, b"F     2     1     0    24\n"));
    tally.count(comes(b"X", &longer, b"F     2     1     0    24\n"));
    Ok(())
}

// A listing with too little room: nothing is written, and 0 is answered.
fn try_short_listing(tally: &mut Tally) {
    let mut listing = [UNTOUCHED; 1791];
    let request = Request {
        rules: WIDTH,
        picks: b"",
        budget: BUDGET,
    };
    let written = request.quote(&mut listing);
    tally.count(written == 0 && listing.iter().all(|byte| *byte == UNTOUCHED));
}

pub fn try_all(rt: &HostRuntime) -> anyhow::Result<Tally> {
    let mut tally = Tally::default();
    try_tables(rt, &mut tally)?;
    try_texts(rt, &mut tally)?;
    try_short_listing(&mut tally);
    Ok(tally)
}
