//! The laws of images.

ghost use Rattle.depot_recovery.specs.Laws.{FindsSound, FindsWhatIsHeld, HoldsOneDepot};

use version_store::files_are_read_again;

/// A law: in an image that holds a depot just that depot is found.
pub fn what_is_held_is_found()
    ensures law { FindsWhatIsHeld }
{
    files_are_read_again();
}

/// A law: an image holds one depot at most.
pub fn image_holds_one_depot()
    ensures law { HoldsOneDepot }
{
    what_is_held_is_found();
}

/// A law: what recovery reads of an image that holds a depot is that depot, with the content of each
/// version that is held.
pub fn sound_is_found()
    ensures law { FindsSound }
{
    files_are_read_again();
    what_is_held_is_found();
}
