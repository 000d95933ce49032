// Groups as a table stores them.
ghost use Rattle.std.specs.Prelude.{◌≡◌, ◌≤◌, map, length};
ghost use Rattle.std.specs.List.{All};
ghost use Rattle.arrayvec.specs.ArrayVec.{array_vec_len};
ghost use Rattle.groups.specs.Group.{Fair, no_rule};
ghost use Rattle.groups.specs.Text.{told};
ghost use Rattle.groups.specs.Table.{rule_of, groups_of};

use crate::group::Group;
use crate::text::GroupText;
use arrayvec::ArrayVec;

// The group without options: an `ArrayVec` fills the places that are not in use with it.
// Written out, since `Default` cannot be derived for a struct with ghost fields, and a group has its bounds in them.
impl Default for Group {
    ghost is_default = { λ g. rule_of g ≡ no_rule };

    fn default() -> Self {
        Group {
            lo: 0,
            hi: 0,
            len: 0,
            options: [0; 32],
        }
    }
}

impl Group {
    // The group that is told.
    pub(crate) fn of(text: &GroupText<'_>) -> Group
        requires { Fair (told text.now) }
        ensures { rule_of result ≡ told text.now }
    {
        let mut options = [0; 32];
        for (i, option) in text.options.iter().enumerate() {
            options[i] = *option as u8;
        }
        Group {
            lo: text.lo as u8,
            hi: text.hi as u8,
            len: text.options.len() as u8,
            options,
        }
    }
}

// All the groups that are told.
pub(crate) fn stored(groups: &[GroupText<'_>]) -> ArrayVec<Group, 64>
    requires few { length groups.now ≤ 64 }
    requires fair { All (λ g. Fair (told g)) groups.now }
    ensures groups { groups_of result.items ≡ map told groups.now }
    ensures few { array_vec_len result ≤ 64 }
{
    let mut table = ArrayVec::new();
    for group in groups {
        table.push(Group::of(group));
    }
    table
}
