ghost use Rattle.std.specs.Prelude.{◌≡◌, IfOk, MatchOption};
ghost use Rattle.exercise.specs.Words.{NoBoxes, numbers_of};

use domain::Bounds;
use std::alloc::{AllocError, Global};

/// Regions, each from six numbers; None where numbers are left over.
pub fn regions_of(heap: Global, numbers: &[u16]) -> Result<Option<Vec<Bounds>>, AllocError>
    ensures made { IfOk result (λ o. MatchOption o (NoBoxes numbers.now)
        (λ regions. numbers_of regions.items ≡ numbers.now)) }
{
    let (sixes, left) = numbers.as_chunks::<6>();
    if !left.is_empty() {
        return Ok(None);
    }
    Ok(Some(sixes.iter().map(|six| Bounds::from(*six)).collect(heap)?))
}

#[cfg(test)]
mod tests {
    use super::*;
    use std::test::Fail;

    // The contract leaves it open that memory may be wanting, so this shows that regions are read.
    #[test]
    fn sixes_make_regions(rt: HostRuntime) -> Result<(), Fail> {
        let numbers = [720, 839, 120, 240, 5, 8, 0, 1, 2, 3, 4, 5];
        let regions = regions_of(rt.alloc(), &numbers)?.ok_or_else(|| Fail::new("none is read"))?;
        assert_eq!(rt; regions.len(), 2);
        assert_eq!(rt;
            regions.as_slice()[0],
            Bounds::from([720, 839, 120, 240, 5, 8])
        );
        assert_eq!(rt; regions.as_slice()[1], Bounds::from([0, 1, 2, 3, 4, 5]));
        assert!(rt; regions_of(rt.alloc(), &numbers[..11])?.is_none());
        assert_eq!(rt;
            regions_of(rt.alloc(), &[])?
                .ok_or_else(|| Fail::new("none is read"))?
                .len(),
            0
        );
        Ok(())
    }
}
