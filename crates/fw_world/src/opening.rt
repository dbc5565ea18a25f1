ghost use Rattle.std.specs.Prelude.{◌≡◌, IfOk};
ghost use Rattle.fw_world.specs.Caches.{IsCacheSize, first_cache};

use cached_verdicts::LaneCache;
use fw_base::OutOfMemory;
use std::alloc::Global;

/// A new lane's cache for so many verdicts, 1 to 65,536, or none.
pub fn open_cache(alloc: Global, capacity: Option<u32>) -> Result<Option<LaneCache>, OutOfMemory>
    requires { IsCacheSize capacity }
    ensures { IfOk result (λ cache. cache ≡ first_cache capacity) }
{
    match capacity {
        Some(capacity) => Ok(Some(LaneCache::open(alloc, capacity)?)),
        None => Ok(None),
    }
}
