//! Laws of the machine: facts of every list of events. Each is the contract of a function that does
//! nothing, so that it is proved, and can be cited.

ghost use Rattle.machine_meaning.specs.Claims.{HasOneClaim};
ghost use Rattle.machine_meaning.specs.Contents.{HasHeldValues, HasLoadsBetween, HasStableContents};
ghost use Rattle.machine_meaning.specs.Events.{HasGoodRuns, HasGoodStarts, HasGoodSteps};
ghost use Rattle.machine_meaning.specs.Progress.{HasProgress, HasReadyFirst};

/// A law: the state that is found after a legal journal is good.
pub fn starts_are_good()
    ensures law { HasGoodStarts }
{}

/// A law: an event leads from a good state to a good one.
pub fn steps_stay_good()
    ensures law { HasGoodSteps }
{}

/// A law: events one by one lead from a good state to a good one, however loads, claims, installs,
/// pins, reclaims and stops follow each other.
pub fn runs_stay_good()
    ensures law { HasGoodRuns }
{}

/// A law: the content of a version stays as it is while a legal journal goes on.
pub fn contents_stay()
    ensures law { HasStableContents }
{}

/// A law: in a good state the content of a held version is its view's value from scratch over the
/// deliveries up to the place of the install that made it.
pub fn held_are_values()
    ensures law { HasHeldValues }
{}

/// A law: between the places of two installs of a partition a raw partition below it gains rows.
pub fn twice_needs_load()
    ensures law { HasLoadsBetween }
{}

/// A law: what was claimed is not ready again before a load, unless a claim of it was given up or
/// ended by a stop.
pub fn one_claim_a_load()
    ensures law { HasOneClaim }
{}

/// A law: if nothing is claimed, the first partition that is not settled is ready.
pub fn unsettled_have_ready()
    ensures law { HasReadyFirst }
{}

/// A law: to claim a ready partition and install it at once leaves fewer unsettled ones. So a drain
/// ends.
pub fn installs_settle()
    ensures law { HasProgress }
{}
