//! What every lawful history says of its starts and of its stages.
ghost use Rattle.conc_base_law.specs.Promises.{StagesFollowLinks, StartsAreAdmitted};

/// Where a request starts at a place, the manager of the place admits it, the place may be used by the shift
/// at the last tick, and no request runs there.
pub fn starts_are_admitted()
    ensures { StartsAreAdmitted }
{}

/// Where a stage of a set begins, it is the first one, and none has begun; or all members of the stage that
/// began last are completed, and the link of that stage for their outcome names it.
pub fn stages_follow_links()
    ensures { StagesFollowLinks }
{}
