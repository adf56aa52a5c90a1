ghost use Rattle.std.specs.Prelude.{◌≡◌, true, ◌↔◌};
ghost use Rattle.pool.specs.Ipv4.{ipv4};
ghost use Rattle.pool.specs.Fit.{Fit};
ghost use Rattle.audit.specs.Head.{HeadFine};

// The head's numbers: the capacity, whether a trial is open and how many changes stand.
pub fn head_is_good(pool: &[u32], capacity: usize) -> bool
    requires { Fit ipv4 capacity pool.now }
    ensures { (result ≡ true) ↔ HeadFine ipv4 capacity pool.now }
{
    if capacity == 0 {
        return false;
    }
    if (pool::LIMIT as usize) < capacity {
        return false;
    }
    if pool[pool::AT_CAPACITY] as usize != capacity {
        return false;
    }
    let trial = pool[pool::AT_TRIAL];
    if 1 < trial {
        return false;
    }
    let standing = pool[pool::AT_STANDING] as usize;
    if pool::CHANGES < standing {
        return false;
    }
    if trial == 1 {
        return true;
    }
    standing == 0
}
