// The oracle: a bank as the plain list of all builds in option order, with those that meet each rule. Every answer of a bank or a
// session is looked up in it by going through the builds.
use crate::meaning::Rule;
use crate::tables::{ClauseTable, DiagramTable, GroupTable};
use crate::values::{Build, MOST_OPTIONS, OPEN, Values, agrees};
use std::alloc::{AllocError, Global};

#[derive(Drop)]
pub struct Oracle {
    width: usize,
    builds: Vec<Build>,
    // for each rule, of each build whether it meets the rule
    rules: Vec<Vec<bool>>,
    // of each build whether it meets every rule
    good: Vec<bool>,
}

// The next build in option order, which counts up with option 0 as the highest digit; none after the last.
fn next_build(build: &Build, width: usize) -> Option<Build> {
    let mut next = *build;
    for bit in next.iter_mut().take(width).rev() {
        *bit = !*bit;
        if *bit {
            return Some(next);
        }
    }
    None
}

// The marks of the builds seen before, if any, and of one build more: where they differ the option is open.
fn joined(before: Option<Values>, build: &Build, width: usize) -> Values {
    let mut marks = before.unwrap_or([OPEN; MOST_OPTIONS]);
    for (mark, bit) in marks.iter_mut().zip(build).take(width) {
        let value = *bit as u8;
        if before.is_none() {
            *mark = value;
        } else if *mark != value {
            *mark = OPEN;
        }
    }
    marks
}

impl Oracle {
    // The bank of so many options and no rule.
    pub fn new(alloc: Global, width: usize) -> Result<Oracle, AllocError> {
        let mut builds = Vec::new(alloc);
        let mut good = Vec::new(alloc);
        let mut next = Some([false; MOST_OPTIONS]);
        for _ in 0..1usize << MOST_OPTIONS {
            let Some(build) = next else {
                break;
            };
            builds.push(build)?;
            good.push(true)?;
            next = next_build(&build, width);
        }
        Ok(Oracle {
            width,
            builds,
            rules: Vec::new(alloc),
            good,
        })
    }

    pub fn width(&self) -> usize {
        self.width
    }

    pub fn count(&self) -> usize {
        self.rules.len()
    }

    // All builds, in option order.
    pub fn builds(&self) -> &[Build] {
        &self.builds
    }

    // One rule more, whose options begin at `start`.
    fn add(&mut self, alloc: Global, rule: Rule<'_>, start: usize) -> Result<(), AllocError> {
        let mut met = Vec::new(alloc);
        for (build, good) in self.builds.iter().zip(&mut self.good) {
            let own = build.get(start..).unwrap_or(&[]);
            let meets = rule.is_met_by(own);
            met.push(meets)?;
            *good &= meets;
        }
        self.rules.push(met)?;
        Ok(())
    }

    pub fn add_diagrams(
        &mut self,
        alloc: Global,
        table: &DiagramTable,
        start: usize,
    ) -> Result<(), AllocError> {
        for root in &table.roots {
            let rule = Rule::Diagram {
                rows: &table.rows,
                root: *root,
            };
            self.add(alloc, rule, start)?;
        }
        Ok(())
    }

    pub fn add_clauses(
        &mut self,
        alloc: Global,
        table: &ClauseTable,
        start: usize,
    ) -> Result<(), AllocError> {
        for literals in &table.clauses {
            self.add(alloc, Rule::Clause(literals), start)?;
        }
        Ok(())
    }

    pub fn add_groups(
        &mut self,
        alloc: Global,
        table: &GroupTable,
        start: usize,
    ) -> Result<(), AllocError> {
        for limits in &table.groups {
            self.add(alloc, Rule::Group(limits), start)?;
        }
        Ok(())
    }

    // Whether build number `at` meets the rule.
    pub fn meets(&self, rule: usize, at: usize) -> bool {
        self.rules
            .get(rule)
            .and_then(|met| met.get(at))
            .copied()
            .unwrap_or(false)
    }

    // Whether build number `at` meets every rule.
    pub fn is_good(&self, at: usize) -> bool {
        self.good.get(at).copied().unwrap_or(false)
    }

    // The marks of a rule under a values table, and how many fitting builds meet it; no marks where the rule is dead.
    pub fn marks(&self, rule: usize, values: &Values) -> (Option<Values>, u64) {
        let mut marks = None;
        let mut count = 0u64;
        for (at, build) in self.builds.iter().enumerate() {
            if agrees(values, build) && self.meets(rule, at) {
                marks = Some(joined(marks, build, self.width));
                count = count.saturating_add(1);
            }
        }
        (marks, count)
    }

    // Whether two builds that differ at this option alone meet the rule unlike. In option order they stand as many places apart
    // as the options after it have builds.
    pub fn depends(&self, rule: usize, option: usize) -> bool {
        let apart = (option.saturating_add(1)..self.width).fold(1usize, |n, _| n.saturating_mul(2));
        self.builds.iter().enumerate().any(|(at, build)| {
            build.get(option) == Some(&false)
                && self.meets(rule, at) != self.meets(rule, at.saturating_add(apart))
        })
    }

    // Whether some build meets every rule, and at most three in four do: then a search has something to find and to run into.
    pub fn is_tight(&self) -> bool {
        let good = self.good.iter().filter(|good| **good).count();
        good > 0 && good.saturating_mul(4) <= self.good.len().saturating_mul(3)
    }

    // The first build in option order that meets every rule and keeps every pick.
    pub fn first(&self, picks: &Values) -> Option<Build> {
        self.builds
            .iter()
            .zip(&self.good)
            .find(|(build, good)| **good && agrees(picks, *build))
            .map(|(build, _)| *build)
    }
}
