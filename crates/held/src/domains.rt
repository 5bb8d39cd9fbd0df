// The domain of the program: Minutes of limit 1,440 without cuts.
ghost use Rattle.std.specs.Prelude.{◌≡◌, []};
ghost use Rattle.domain.specs.Minutes.{minutes};

use domain::minutes::Minutes;
use std::alloc::Global;

// The domain that the program reads with.
pub fn held_minutes(heap: Global) -> Minutes
    ensures { minutes result.limit result.cuts.items ≡ minutes 1440 [] }
{
    Minutes::new(1440, Vec::new(heap)).unwrap()
}
