// The table of groups. A caller holds one and fills it; it never has a group that breaks the rules.
ghost use Rattle.std.specs.Prelude.{◌≡◌, ◌≤◌, true};
ghost use Rattle.arrayvec.specs.ArrayVec.{array_vec_len};
ghost use Rattle.groups.specs.Table.{groups_of, all_within};

use crate::group::Group;
use arrayvec::ArrayVec;

// The groups, over options below `width`.
#[derive(Drop)]
pub struct Groups {
    pub(crate) width: usize,
    pub(crate) groups: ArrayVec<Group, 64>,
    ghost sized: { (1 ≤ width) × (width ≤ 128) × (array_vec_len groups ≤ 64) },
    ghost within: { all_within width (groups_of groups.items) ≡ true },
}
