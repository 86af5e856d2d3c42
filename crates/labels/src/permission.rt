// Permissions: which labels a row may have, as a byte whose bit x permits the label x.
ghost use Rattle.std.specs.Prelude.{◌≡◌, ◌≤◌, eqb};
ghost use Rattle.labels.specs.Permission.{permits, permission, restrict, join, only, label_of};

// Whether a permission permits a label.
pub fn may_have(perm: u8, label: u8) -> bool
    ensures { result ≡ permits perm label }
{
    match label {
        0 => perm % 2 == 1,
        1 => perm / 2 % 2 == 1,
        2 => perm / 4 % 2 == 1,
        _ => false,
    }
}

// The permission of a label alone.
#[tactic(auto, unfolding(crate::specs::Permission::only))]
pub fn only_label(label: u8) -> u8
    ensures { result ≡ only label }
{
    match label {
        0 => 1,
        1 => 2,
        2 => 4,
        _ => 0,
    }
}

// The label of a permission that permits one label alone.
#[tactic(auto, unfolding(crate::specs::Permission::label_of))]
pub fn label_of(perm: u8) -> u8
    ensures { result ≡ label_of perm }
{
    match perm {
        0 => 3,
        1 => 0,
        2 => 1,
        _ => 2,
    }
}

// The permission of the labels 0, 1 and 2 that the tests say.
#[tactic(auto, unfolding(crate::specs::Permission::permission))]
pub fn permission_of(zero: bool, one: bool, two: bool) -> u8
    ensures { result ≡ permission zero one two }
{
    u8::from(zero) + u8::from(one) * 2 + u8::from(two) * 4
}

// What is left of a permission where the tests say which of the labels 0, 1 and 2 may stay.
#[tactic(auto, using(crate::proofs::Permissions::and_permission))]
pub fn restricted(perm: u8, zero: bool, one: bool, two: bool) -> u8
    ensures { result ≡ restrict perm zero one two }
{
    perm & permission_of(zero, one, two)
}

// What is left of a permission where one label alone may stay.
#[tactic(auto, using(crate::proofs::Permissions::and_only))]
pub fn restricted_to(perm: u8, label: u8) -> u8
    requires { label ≤ 2 }
    ensures { result ≡ restrict perm (eqb label 0) (eqb label 1) (eqb label 2) }
{
    perm & only_label(label)
}

// What one of two permissions permits.
pub fn joined(p: u8, q: u8) -> u8
    ensures { result ≡ join p q }
{
    permission_of(
        may_have(p, 0) || may_have(q, 0),
        may_have(p, 1) || may_have(q, 1),
        may_have(p, 2) || may_have(q, 2),
    )
}
