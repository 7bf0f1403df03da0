//! Laws of the definitions. Each is the contract of a function that does nothing, so that it is proved.
ghost use Rattle.tab_compact.specs.Plans.{PlanIsGreatest};

/// The plan is the greatest number of at least two tables that fits, and there is none only where no such number does.
pub fn plan_is_greatest()
    ensures { PlanIsGreatest }
{}
