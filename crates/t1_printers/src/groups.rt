//! The groups of a font.

ghost use Rattle.std.specs.Prelude.{◌≡◌, vec_len};
ghost use Rattle.t1_rules.specs.Book.{last_number};

use crate::group::Group;

/// The lines of a font, a group for each rule in the order of the rules' numbers.
#[derive(Drop)]
pub struct Groups {
    pub(crate) groups: Vec<Group>,
    ghost each: { vec_len groups ≡ last_number },
}
