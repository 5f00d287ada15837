// Nearest square roots of whole numbers, decided by comparing squares.
ghost use Rattle.std.specs.Prelude.{◌<◌, ◌≤◌};
ghost use Rattle.root.specs.Whole.{Rounds};

// Returns the whole number nearest to the square root of n. It steps by one from any start.
pub fn walk(n: u64, start: u64) -> u64
    requires { (0 < n) × (n ≤ 0xFFFFFF000000) × (start < 0x100000000) }
    ensures { Rounds n result }
{
    let mut q = start;
    while q * q + q < n {
        q += 1;
    }
    while n + q <= q * q {
        q -= 1;
    }
    q
}

// Returns the same as `walk`. The start is usually the result already: then start * (start + 1) - n is at least 0 and below 2 * start.
pub fn settle(n: u64, start: u64) -> u64
    requires { (0 < n) × (n ≤ 0xFFFFFF000000) × (start < 0x100000000) }
    ensures { Rounds n result }
{
    let past = std::num::wrapping_sub_u64(start * start + start, n);
    if past < 2 * start {
        return start;
    }
    walk(n, start)
}
