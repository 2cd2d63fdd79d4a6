// What a mark keeps in order.

ghost use Rattle.std.specs.Prelude.{◌≡◌, ◌+◌, ◌<◌, ◌≤◌, true, false};
ghost use Rattle.dg_unify.specs.Store.{trail_for};
ghost use Rattle.dg_unify.specs.Fences.{fence_for_new, fence_for_link};

use dg_unify::Fence;

/// Moves the fence for new variables behind so many slots and variables: it stays while all slots behind it are variables.
#[inline(always)]
pub fn move_fence(fence: &mut Fence, slots: usize, vars: usize)
    requires slots_in { fence.old.slots ≤ slots }
    requires vars_in { fence.old.vars ≤ vars }
    ensures { fence.new ≡ fence_for_new fence.old (record { slots = slots; vars = vars; reach = vars }) }
{
    if slots - fence.slots != vars - fence.vars {
        *fence = Fence {
            slots,
            vars,
            reach: vars,
        };
    }
}

/// Moves the fence where a variable is bound to a value with variables below `top`.
#[inline(always)]
pub fn bind_fence(fence: &mut Fence, var: u32, top: usize, now: Fence)
    ensures { fence.new ≡ fence_for_link fence.old var top now }
{
    if var as usize >= fence.vars || top <= fence.vars {
        fence.reach = fence.reach.max(top);
    } else if top >= now.vars || fence.reach >= now.vars {
        *fence = now;
    } else {
        fence.vars = fence.reach.max(top);
        fence.reach = fence.vars;
    }
}

/// Counts the binding of a variable on the trail, where the variable is older than the newest mark, and answers whether there is room.
#[inline(always)]
pub fn count_link(trail: &mut u32, limit: u32, since: usize, var: u32) -> bool
    requires fits { trail.old ≤ limit }
    ensures counted { result ≡ true → (trail.new ≡ trail.old + trail_for since var) × (trail.new ≤ limit) }
    ensures full { result ≡ false → (limit < trail.old + trail_for since var) × (trail.new ≡ trail.old) }
{
    if var as usize >= since {
        return true;
    }
    if *trail == limit {
        return false;
    }
    *trail += 1;
    true
}
