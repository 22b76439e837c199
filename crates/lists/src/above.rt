ghost use Rattle.std.specs.Prelude.{◌≡◌};
ghost use Rattle.lists.specs.Bound.{any_above};

// Whether some entry is above the limit. The loop goes to the end, so that the compiler handles several entries at a time.
pub fn any_above(limit: u16, s: &[u16]) -> bool
    ensures { result ≡ any_above limit s.now }
{
    let mut found = false;
    for x in s {
        found |= limit < *x;
    }
    found
}
