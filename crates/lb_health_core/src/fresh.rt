//! Keys that a membership starts, counted without memory: those that no backend of the views has. They are counted only where
//! the numbers that are left may not be enough, so that a call that isn't near the last number pays one comparison.
ghost use Rattle.std.specs.Prelude.{◌≡◌, ◌↔◌, ◌+◌, ◌≤◌, ◌^◌, ℕ, length, map, take, IsTrue};
ghost use Rattle.std.specs.List.{list_any};
ghost use Rattle.std.specs.List.Sorted.{IsStrictlySortedBy};
ghost use Rattle.lb_select_base.specs.Backends.{Member, member_cmp, same_member};
ghost use Rattle.lb_health_core.specs.Fresh.{has_key, fresh};
ghost use Rattle.lb_health_core.specs.Keys.{IsRuleOf};
ghost use Rattle.lb_health_core.specs.Targets.{view_value, live};

use crate::keys::KeyRule;
use crate::targets::View;
use lb_select_base::backend::Backend;
use std::collections::BTreeSet;

// Whether one of the first backends, as many as `most` says, has the key of this one.
fn shares_key<R: KeyRule>(
    rule: &R,
    members: &BTreeSet<Backend>,
    most: usize,
    backend: &Backend,
) -> bool
    ensures { (key_of : Member → Member) → IsRuleOf R.gives rule.now key_of
        → result ≡ list_any (λ m. same_member (key_of backend.now) (key_of m)) (take most members.now.keys) }
{
    let mut left = most;
    for other in members {
        if left == 0 {
            return false;
        }
        if rule.same(backend, other) {
            return true;
        }
        left -= 1;
    }
    false
}

// Whether a backend of a view that no mark waits for has the key of this one.
pub(crate) fn is_taken<R: KeyRule>(rule: &R, views: &[View], backend: &Backend) -> bool
    ensures { (key_of : Member → Member) → IsRuleOf R.gives rule.now key_of
        → result ≡ has_key key_of (live (map view_value views.now)) (key_of backend.now) }
{
    for view in views {
        if !view.marked && shares_key(rule, &view.members, view.members.len(), backend) {
            return true;
        }
    }
    false
}

// How many keys the membership starts.
fn fresh_count<R: KeyRule>(rule: &R, views: &[View], members: &BTreeSet<Backend>) -> usize
    ensures { (key_of : Member → Member) (id : ℕ) → IsRuleOf R.gives rule.now key_of
        → result ≡ length (fresh key_of (live (map view_value views.now)) id members.now.keys) }
{
    let mut count = members.len();
    let mut place = 0;
    for backend in members {
        if is_taken(rule, views, backend) || shares_key(rule, members, place, backend) {
            count -= 1;
        }
        place += 1;
    }
    count
}

// Whether fewer numbers are left than the membership starts keys, where `next` is the number of the next cell.
pub(crate) fn lacks_numbers<R: KeyRule>(
    rule: &R,
    views: &[View],
    members: &BTreeSet<Backend>,
    next: u64,
) -> bool
    ensures lacks { (key_of : Member → Member) (id : ℕ) → IsRuleOf R.gives rule.now key_of
        → (IsTrue result ↔ (2 ^ 64 ≤ next + length (fresh key_of (live (map view_value views.now)) id members.now.keys))) }
    ensures ordered { IsStrictlySortedBy member_cmp members.now.keys }
{
    let left = u64::MAX - next;
    if members.len() as u64 <= left {
        return false;
    }
    fresh_count(rule, views, members) as u64 > left
}
