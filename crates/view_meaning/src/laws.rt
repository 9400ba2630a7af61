//! Laws of the definitions: facts of every journal. Each is the contract of a function that does
//! nothing, so that it is proved, and can be cited.

ghost use Rattle.view_meaning.specs.Contents.{HasSettledValues, HasValuesOfLatest};
ghost use Rattle.view_meaning.specs.Drains.{HasFittingDrains, HasLegalDrains, HasSettlingDrains};
ghost use Rattle.view_meaning.specs.Installs.{HasInstallValues};
ghost use Rattle.view_meaning.specs.Marks.{HasExactMarks, HasRisingMarks, HasStableClosed};
ghost use Rattle.view_meaning.specs.RawMarks.{HasClosingPlaces, HasRisingRawMarks};
ghost use Rattle.view_meaning.specs.Reached.{HasReachedUnsettled};
ghost use Rattle.view_meaning.specs.Shown.{HasShownContents};
ghost use Rattle.view_meaning.specs.Stability.{HasShutClosed, HasStableSettled};

/// A law: if a partition is settled, the content of its latest version is its value from
/// scratch over all accepted deliveries.
pub fn settled_is_value()
    ensures law { HasSettledValues }
{}

/// A law: if the sources of a partition are settled, what it comes to over their latest versions is
/// its value from scratch over all accepted deliveries.
pub fn latest_make_values()
    ensures law { HasValuesOfLatest }
{}

/// A law: in a legal journal the version that an install made holds the value from scratch over the
/// deliveries up to its place.
pub fn installs_are_values()
    ensures law { HasInstallValues }
{}

/// A law: a drain of a journal that fits the description leaves one.
pub fn drains_fit()
    ensures law { HasFittingDrains }
{}

/// A law: a drain of a legal journal leaves a legal one.
pub fn drains_are_legal()
    ensures law { HasLegalDrains }
{}

/// A law: after a drain of a legal journal each partition is settled.
pub fn drains_settle()
    ensures law { HasSettlingDrains }
{}

/// A law: if each partition was settled, those that rest on one in which new deliveries keep a row
/// are the unsettled ones.
pub fn reached_are_unsettled()
    ensures law { HasReachedUnsettled }
{}

/// A law: after a legal journal the rows that are shown of a partition are the content of the
/// version that is shown.
pub fn shown_is_content()
    ensures law { HasShownContents }
{}

/// A law: the closing place of a closed partition is the least count of accepted deliveries after
/// which it is closed.
pub fn closing_places_are_least()
    ensures law { HasClosingPlaces }
{}

/// A law: no delivery keeps a row in a raw partition that those before it closed.
pub fn closed_is_shut()
    ensures law { HasShutClosed }
{}

/// A law: the mark of a raw partition never falls as new deliveries are accepted.
pub fn raw_marks_rise()
    ensures law { HasRisingRawMarks }
{}

/// A law: a settled partition stays settled, with its version and its rows, until a raw partition
/// below it gains rows.
pub fn settled_is_stable()
    ensures law { HasStableSettled }
{}

/// A law: a partition that is marked closed or complete stays settled, with its version and its
/// rows, in each legal journal that goes on from there.
pub fn closed_is_stable()
    ensures law { HasStableClosed }
{}

/// A law: the mark of a partition is closed or complete exactly if the partition is settled and
/// each raw partition below it has at least that mark.
pub fn marks_are_exact()
    ensures law { HasExactMarks }
{}

/// A law: the mark of a partition never falls as a legal journal goes on.
pub fn marks_rise()
    ensures law { HasRisingMarks }
{}
