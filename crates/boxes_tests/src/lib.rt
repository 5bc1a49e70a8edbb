//! Boxes, splits and plans, tried by running.

#![tactic(auto)]

#[cfg(test)]
mod tests {
    use boxes::{CellBox, Pieces};
    use domain::{Bounds, Cell, Refusal, YearMonth};
    use std::alloc::{AllocError, Global};
    use std::test::Fail;

    // All services and bands of some births.
    fn slice(low: u16, high: u16) -> Bounds {
        Bounds::from([low, high, 0, 719, 0, 15])
    }

    // The refusal of six numbers that make no box.
    fn refusal(numbers: Bounds) -> Option<Refusal> {
        CellBox::new(numbers).err()
    }

    fn piece(pieces: &Pieces, place: usize) -> Result<Bounds, Fail> {
        pieces
            .get(place)
            .map(|piece| piece.bounds())
            .ok_or_else(|| Fail::new("there is no such piece"))
    }

    // One region at each of the first n odd births, so that the even ones are left.
    fn odd_births(heap: Global, n: u8) -> Result<Vec<Bounds>, AllocError> {
        (0..n)
            .map(|k| 2 * u16::from(k) + 1)
            .map(|birth| slice(birth, birth))
            .collect(heap)
    }

    #[test]
    fn ends_of_the_domain(rt: HostRuntime) -> Result<(), Fail> {
        assert_eq!(rt; CellBox::new(Bounds::from([0, 0, 0, 0, 0, 0]))?.cells(), 1);
        assert_eq!(rt;
            CellBox::new(Bounds::from([1535, 1535, 719, 719, 15, 15]))?.cells(),
            1
        );
        assert_eq!(rt;
            CellBox::new(Bounds::from([0, 1535, 0, 719, 0, 15]))?.cells(),
            17_694_720
        );
        assert_eq!(rt; CellBox::whole().cells(), 17_694_720);
        assert_eq!(rt;
            refusal(Bounds::from([0, 1536, 0, 719, 0, 15])),
            Some(Refusal::InvalidRange)
        );
        assert_eq!(rt;
            refusal(Bounds::from([0, 1535, 0, 720, 0, 15])),
            Some(Refusal::InvalidRange)
        );
        assert_eq!(rt;
            refusal(Bounds::from([0, 1535, 0, 719, 0, 16])),
            Some(Refusal::InvalidRange)
        );
        assert_eq!(rt;
            refusal(Bounds::from([65535, 65535, 0, 719, 0, 15])),
            Some(Refusal::InvalidRange)
        );
        Ok(())
    }

    #[test]
    fn out_of_span_before_reversed(rt: HostRuntime) {
        assert_eq!(rt;
            refusal(Bounds::from([9, 8, 0, 0, 0, 0])),
            Some(Refusal::ReversedRange)
        );
        assert_eq!(rt;
            refusal(Bounds::from([0, 0, 9, 8, 0, 0])),
            Some(Refusal::ReversedRange)
        );
        assert_eq!(rt;
            refusal(Bounds::from([0, 0, 0, 0, 9, 8])),
            Some(Refusal::ReversedRange)
        );
        assert_eq!(rt;
            refusal(Bounds::from([9, 8, 0, 0, 0, 16])),
            Some(Refusal::InvalidRange)
        );
        assert_eq!(rt;
            refusal(Bounds::from([1536, 8, 0, 0, 0, 0])),
            Some(Refusal::InvalidRange)
        );
    }

    #[test]
    fn cells_and_meeting(rt: HostRuntime) -> Result<(), Fail> {
        let area = CellBox::new(Bounds::from([10, 19, 5, 5, 0, 3]))?;
        assert_eq!(rt; area.cells(), 40);
        assert!(rt;
            area.contains(Cell {
                birth: 10,
                service: 5,
                band: 0,
            })
        );
        assert!(rt;
            area.contains(Cell {
                birth: 19,
                service: 5,
                band: 3,
            })
        );
        assert!(rt;
            !area.contains(Cell {
                birth: 20,
                service: 5,
                band: 3,
            })
        );
        assert!(rt;
            !area.contains(Cell {
                birth: 9,
                service: 5,
                band: 3,
            })
        );
        assert!(rt; area.meets(CellBox::new(Bounds::from([19, 30, 0, 9, 3, 15]))?));
        assert!(rt; !area.meets(CellBox::new(Bounds::from([20, 30, 0, 9, 3, 15]))?));
        assert!(rt; !area.meets(CellBox::new(Bounds::from([0, 9, 0, 9, 0, 15]))?));
        assert!(rt; !area.meets(CellBox::new(Bounds::from([0, 30, 6, 9, 0, 15]))?));
        Ok(())
    }

    #[test]
    fn the_32nd_and_the_33rd_piece(rt: HostRuntime) -> Result<(), Fail> {
        let question = CellBox::new(slice(0, 64))?;
        let pieces = question.split(odd_births(rt.alloc(), 31)?.as_slice())?;
        assert_eq!(rt; pieces.len(), 32);
        assert_eq!(rt; piece(&pieces, 0)?, slice(0, 0));
        assert_eq!(rt; piece(&pieces, 31)?, slice(62, 64));
        assert!(rt; pieces.get(32).is_none());
        assert_eq!(rt; pieces.cells(), 34 * 11_520);
        assert!(rt;
            question
                .split(odd_births(rt.alloc(), 32)?.as_slice())
                .is_err()
        );
        Ok(())
    }

    // A piece that becomes five and pieces that vanish, by one region: what counts is what stands when it has cut them
    // all. The first piece is wide; the 31 slices after it have few services and bands.
    fn one_wide_and_slices(heap: Global) -> Result<Vec<Bounds>, AllocError> {
        let mut regions = Vec::new(heap);
        regions.push(Bounds::from([11, 71, 0, 99, 0, 15]))?;
        regions.push(Bounds::from([11, 71, 200, 719, 0, 15]))?;
        regions.push(Bounds::from([11, 71, 100, 199, 0, 3]))?;
        regions.push(Bounds::from([11, 71, 100, 199, 8, 15]))?;
        regions.extend(
            (0..30u8)
                .map(|k| 2 * u16::from(k) + 12)
                .map(|birth| slice(birth, birth)),
        )?;
        Ok(regions)
    }

    #[test]
    fn pieces_are_counted_after_a_region(rt: HostRuntime) -> Result<(), Fail> {
        let question = CellBox::new(slice(0, 71))?;
        let mut regions = one_wide_and_slices(rt.alloc())?;
        let before = question.split(regions.as_slice())?;
        assert_eq!(rt; before.len(), 32);
        assert_eq!(rt; piece(&before, 0)?, slice(0, 10));
        assert_eq!(rt; piece(&before, 31)?, Bounds::from([71, 71, 100, 199, 4, 7]));
        // five for one, and the slices 11, 13, 15 and 17 vanish
        regions.push(Bounds::from([5, 18, 50, 300, 2, 10]))?;
        let after = question.split(regions.as_slice())?;
        assert_eq!(rt; after.len(), 32);
        assert_eq!(rt; piece(&after, 0)?, slice(0, 4));
        assert_eq!(rt; piece(&after, 5)?, Bounds::from([19, 19, 100, 199, 4, 7]));
        Ok(())
    }

    #[test]
    fn a_slice_less_vanishes_and_the_split_breaks(rt: HostRuntime) -> Result<(), Fail> {
        let question = CellBox::new(slice(0, 71))?;
        let mut regions = one_wide_and_slices(rt.alloc())?;
        regions.push(Bounds::from([5, 16, 50, 300, 2, 10]))?;
        assert!(rt; question.split(regions.as_slice()).is_err());
        Ok(())
    }

    #[test]
    fn plans_are_refused_in_order(rt: HostRuntime) -> Result<(), Fail> {
        let question = CellBox::new(slice(0, 64))?;
        let mut list = [slice(7, 7); 2];
        let broken = odd_births(rt.alloc(), 32)?;
        let whole = odd_births(rt.alloc(), 31)?;
        assert_eq!(rt;
            question.plan(broken.as_slice(), &mut list),
            Err(Refusal::SplitTooLarge)
        );
        assert_eq!(rt;
            question.plan(whole.as_slice(), &mut list),
            Err(Refusal::ListTooShort)
        );
        assert_eq!(rt; list[0], slice(7, 7));
        assert_eq!(rt; list[1], slice(7, 7));
        Ok(())
    }

    #[test]
    fn plans_leave_what_is_beyond(rt: HostRuntime) -> Result<(), Fail> {
        let question = CellBox::new(slice(0, 2))?;
        let mut list = [slice(7, 7); 3];
        assert_eq!(rt;
            question.plan(odd_births(rt.alloc(), 1)?.as_slice(), &mut list),
            Ok(2)
        );
        assert_eq!(rt; list[0], slice(0, 0));
        assert_eq!(rt; list[1], slice(2, 2));
        assert_eq!(rt; list[2], slice(7, 7));
        let mut none = [slice(7, 7); 0];
        assert_eq!(rt; question.plan(&[slice(0, 2)], &mut none), Ok(0));
        Ok(())
    }

    #[test]
    fn months_and_ranks(rt: HostRuntime) {
        assert_eq!(rt;
            YearMonth {
                year: 1900,
                month: 1,
            }
            .rank(),
            Some(0)
        );
        assert_eq!(rt;
            YearMonth {
                year: 2027,
                month: 12,
            }
            .rank(),
            Some(1535)
        );
        assert_eq!(rt;
            YearMonth {
                year: 1899,
                month: 12,
            }
            .rank(),
            None
        );
        assert_eq!(rt;
            YearMonth {
                year: 2028,
                month: 1,
            }
            .rank(),
            None
        );
        assert_eq!(rt;
            YearMonth {
                year: 1960,
                month: 0,
            }
            .rank(),
            None
        );
        assert_eq!(rt;
            YearMonth {
                year: 1960,
                month: 13,
            }
            .rank(),
            None
        );
        assert_eq!(rt;
            YearMonth::of_rank(720),
            Some(YearMonth {
                year: 1960,
                month: 1,
            })
        );
        assert_eq!(rt; YearMonth::of_rank(1536), None);
    }
}
