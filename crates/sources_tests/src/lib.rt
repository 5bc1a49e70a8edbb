//! Collections, tables and value functions, tried by running.

#![tactic(auto)]

#[cfg(test)]
mod tests {
    use boxes::CellBox;
    use domain::{Bounds, Refusal};
    use sources::{Record, Source, is_collection};
    use statements::Answer;
    use std::alloc::{AllocError, Global};
    use std::test::Fail;
    use tables::{Table, draw};
    use values::{Nearness, PlainRegion, Recency, Region, ValueFunction};

    // The box of six numbers.
    fn area(six: [u16; 6]) -> Result<CellBox, Refusal> {
        CellBox::new(Bounds::from(six))
    }

    fn member(number: u32, birth: u16, service: u16, band: u16) -> Record {
        Record {
            number,
            birth,
            service,
            band,
            pension: 6000,
        }
    }

    // Members 1 to n, all of one cell.
    fn members(heap: Global, n: u32) -> Result<Vec<Record>, AllocError> {
        (1..=n)
            .map(|number| member(number, 734, 130, 5))
            .collect(heap)
    }

    // What stands in a buffer before a question.
    fn old() -> Record {
        member(77, 7, 7, 7)
    }

    #[test]
    fn a_table_answers_in_the_order_of_numbers(rt: HostRuntime) -> Result<(), Fail> {
        let records = [
            member(1, 734, 130, 5),
            member(4, 798, 200, 6),
            member(9, 874, 12, 8),
        ];
        let mut table = Table::new(&records);
        assert_eq!(rt; table.len(), 3);
        assert_eq!(rt; table.meter(), 0);
        let mut out = [old(); 3];
        assert_eq!(rt;
            table.query(area([780, 959, 0, 240, 5, 8])?, &mut out),
            Ok(2)
        );
        assert_eq!(rt; out[0], records[1]);
        assert_eq!(rt; out[1], records[2]);
        assert_eq!(rt; out[2], old());
        assert_eq!(rt; table.meter(), 173_520);
        Ok(())
    }

    #[test]
    fn each_end_of_each_range_belongs_to_it(rt: HostRuntime) -> Result<(), Fail> {
        let question = area([10, 20, 30, 40, 3, 5])?;
        assert!(rt; member(1, 10, 30, 3).lies_in(question));
        assert!(rt; member(1, 20, 40, 5).lies_in(question));
        assert!(rt; !member(1, 9, 30, 3).lies_in(question));
        assert!(rt; !member(1, 21, 30, 3).lies_in(question));
        assert!(rt; !member(1, 10, 29, 3).lies_in(question));
        assert!(rt; !member(1, 10, 41, 3).lies_in(question));
        assert!(rt; !member(1, 10, 30, 2).lies_in(question));
        assert!(rt; !member(1, 10, 30, 6).lies_in(question));
        Ok(())
    }

    #[test]
    fn a_buffer_of_no_places(rt: HostRuntime) -> Result<(), Fail> {
        let records = [member(1, 734, 130, 5)];
        let mut none = [old(); 0];
        assert_eq!(rt;
            draw(&records, area([0, 733, 0, 719, 0, 15])?, &mut none).answer,
            Ok(0)
        );
        assert_eq!(rt;
            draw(&records, area([0, 734, 0, 719, 0, 15])?, &mut none).answer,
            Err(Refusal::BufferTooShort)
        );
        Ok(())
    }

    #[test]
    fn a_refusal_blanks_every_place_and_charges(rt: HostRuntime) -> Result<(), Fail> {
        let records = [
            member(1, 734, 130, 5),
            member(2, 734, 131, 5),
            member(3, 734, 132, 5),
        ];
        let mut table = Table::new(&records);
        let mut out = [old(); 2];
        let question = area([734, 734, 130, 132, 5, 5])?;
        assert_eq!(rt;
            table.query(question, &mut out),
            Err(Refusal::BufferTooShort)
        );
        assert_eq!(rt; out[0], Record::BLANK);
        assert_eq!(rt; out[1], Record::BLANK);
        assert_eq!(rt; table.meter(), 3);
        // and the next question is answered and charged as any other
        assert_eq!(rt;
            table.query(area([734, 734, 131, 132, 5, 5])?, &mut out),
            Ok(2)
        );
        assert_eq!(rt; out[0], records[1]);
        assert_eq!(rt; out[1], records[2]);
        assert_eq!(rt; table.meter(), 5);
        Ok(())
    }

    #[test]
    fn up_to_2048_records(rt: HostRuntime) -> Result<(), Fail> {
        let mut records = members(rt.alloc(), 2048)?;
        let mut out = members(rt.alloc(), 2049)?;
        assert!(rt; is_collection(records.as_slice()));
        assert_eq!(rt; Table::new(records.as_slice()).len(), 2048);
        let drawn = draw(records.as_slice(), CellBox::whole(), out.as_mut_slice());
        assert_eq!(rt; drawn.answer, Ok(2048));
        records.push(member(2049, 734, 130, 5))?;
        assert!(rt; !is_collection(records.as_slice()));
        assert_eq!(rt; Table::new(records.as_slice()).len(), 0);
        Ok(())
    }

    #[test]
    fn lists_that_are_no_collection(rt: HostRuntime) {
        assert!(rt; is_collection(&[]));
        assert!(rt; is_collection(&[member(1, 1535, 719, 15), member(u32::MAX, 0, 0, 0)]));
        assert!(rt; !is_collection(&[member(1, 0, 0, 0), member(1, 1, 0, 0)]));
        assert!(rt; !is_collection(&[member(2, 0, 0, 0), member(1, 1, 0, 0)]));
        assert!(rt; !is_collection(&[member(0, 0, 0, 0)]));
        assert!(rt; !is_collection(&[member(1, 1536, 0, 0)]));
        assert!(rt; !is_collection(&[member(1, 0, 720, 0)]));
        assert!(rt; !is_collection(&[member(1, 0, 0, 16)]));
    }

    #[test]
    fn an_unlawful_list_answers_none_and_charges(rt: HostRuntime) {
        let records = [member(2, 734, 130, 5), member(1, 734, 130, 5)];
        let mut out = [old(); 2];
        let mut table = Table::new(&records);
        assert_eq!(rt; table.len(), 0);
        assert_eq!(rt; table.query(CellBox::whole(), &mut out), Ok(0));
        assert_eq!(rt; out[0], old());
        assert_eq!(rt; out[1], old());
        assert_eq!(rt; table.meter(), 17_694_720);
    }

    #[test]
    fn recency_and_nearness(rt: HostRuntime) -> Result<(), Fail> {
        let question = area([10, 20, 30, 40, 3, 5])?;
        let first = area([0, 0, 0, 0, 0, 0])?;
        let last = area([1535, 1535, 719, 719, 15, 15])?;
        assert_eq!(rt; Recency.value(Region::new(first, 41, 0), question), 41);
        assert_eq!(rt;
            Nearness.value(Region::new(question, 41, 0), question),
            4538
        );
        assert_eq!(rt; Nearness.value(Region::new(first, 1, 2), last), 0);
        assert_eq!(rt; Nearness.value(Region::new(last, 1, 2), first), 0);
        // as far before the question as after it, and with another box of the same sums
        assert_eq!(rt;
            Nearness.value(Region::new(area([5, 15, 30, 40, 3, 5])?, 1, 2), question,),
            4528
        );
        assert_eq!(rt;
            Nearness.value(Region::new(area([15, 25, 30, 40, 3, 5])?, 1, 2), question,),
            4528
        );
        assert_eq!(rt;
            Nearness.value(Region::new(area([15, 15, 0, 70, 4, 4])?, 1, 2), question,),
            4538
        );
        Ok(())
    }

    #[test]
    fn a_region_has_its_plain_numbers(rt: HostRuntime) -> Result<(), Fail> {
        let question = area([10, 20, 30, 40, 3, 5])?;
        let region = Region::new(question, 41, 7);
        assert_eq!(rt; region.area().bounds(), question.bounds());
        assert_eq!(rt; region.stamp(), 41);
        assert_eq!(rt; region.count(), 7);
        assert_eq!(rt;
            PlainRegion::from(region),
            PlainRegion {
                bounds: question.bounds(),
                stamp: 41,
                count: 7,
            }
        );
        Ok(())
    }

    #[test]
    fn answers_are_written_with_their_numbers(rt: HostRuntime) -> Result<(), Fail> {
        let none = Answer { records: &[] };
        assert_eq!(rt; none.to_string(rt.alloc())?.as_str(), "answer 0");
        let answered = [member(4, 798, 200, 6), member(9, 874, 12, 8)];
        let both = Answer { records: &answered };
        assert_eq!(rt; both.to_string(rt.alloc())?.as_str(), "answer 2: 4 9");
        let last = Answer {
            records: &answered[1..],
        };
        assert_eq!(rt; last.to_string(rt.alloc())?.as_str(), "answer 1: 9");
        Ok(())
    }
}
