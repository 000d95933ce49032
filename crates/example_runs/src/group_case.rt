// A group: two of three options, no more and no less.
use crate::show::show_rule;
use anyhow::anyhow;
use groups::table::Groups;
use groups::text::GroupText;

pub fn show_groups(rt: &HostRuntime) -> anyhow::Result<()> {
    let mut table = Groups::empty();
    let two = GroupText {
        lo: 2,
        hi: 2,
        options: &[0, 1, 2],
    };
    table
        .open(3, &[two])
        .map_err(|_| anyhow!("the table of groups was refused"))?;
    show_rule(rt, "group 2 to 2 of options 0, 1, 2", &table, 0, &[0, 2, 2])
}
