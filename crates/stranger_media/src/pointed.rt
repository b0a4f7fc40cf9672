// A medium of any kind behind a pointer, by what its trait's methods say alone.
ghost use Rattle.std.specs.Prelude.{◌≡◌, length};
ghost use Rattle.std.specs.List.{AllByRecursion};
ghost use Rattle.medium.specs.Bursts.{Carried};

use medium::Medium;

// How many bursts are under way. Each fits a place of 104 bytes, and none is empty.
pub fn under_way(medium: &dyn Medium) -> usize
    ensures value { result ≡ length (bursts medium.now) }
    ensures carried { AllByRecursion Carried (bursts medium.now) }
{
    medium.count()
}
