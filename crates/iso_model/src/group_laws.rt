// The laws of groups: each function does nothing, and its contract is the law.
ghost use Rattle.std.specs.{Prelude.{◌≡◌, ℕ, ◌<◌, List, [], ◌∷◌}, List.AllByRecursion};
ghost use Rattle.iso_model.specs.{Group.{after_member, decided, group, group_step, leave_all, member_reply, numbers_told, Follow}, History.last, Step.end_step, World.{World, Live}, Worlds.{IsLive, IsWorld, LeadsTo}};

/// A group of live transactions leads from a sound world to a sound one: the history grows and stays isolated.
pub fn groups_keep_worlds_sound()
    ensures members { (W : World) (members : List Live) → IsWorld W → AllByRecursion (IsLive W) members → LeadsTo W (group W members).1 }
    ensures labels { (W : World) (texts : List (List ℕ)) → IsWorld W → LeadsTo W (group_step W texts).1 }
{}

/// The members may as well be decided first, each against the commits before it and those of the members before it, and leave
/// together: replies and world are the same.
pub fn groups_may_decide_first()
    ensures { (W : World) (members : List Live) → group W members ≡ ((decided W members).0, leave_all members (decided W members).1) }
{}

/// The commits of a group have the next numbers, without a gap.
pub fn commits_of_a_group_are_consecutive()
    ensures { (W : World) (members : List Live) → 0 < W.history.first → Follow (last W.history) (numbers_told (group W members).0) }
{}

/// A group of one is an end, after which the transaction is not live.
pub fn a_group_of_one_is_an_end()
    ensures { (W : World) (t : Live) → group W (t ∷ []) ≡ (member_reply (end_step W t).0 ∷ [], after_member t (end_step W t)) }
{}
