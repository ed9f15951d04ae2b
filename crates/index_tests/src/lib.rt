//! Examples of what the calls of an index do.
#![tactic(auto)]

#[cfg(test)]
mod tests {
    use index::pivot_index::PivotIndex;
    use metric::channels::{Pair, Single};
    use metric::city_block::CityBlock;
    use metric::hamming::Hamming;
    use refusal::Refusal;
    use std::test::Fail;

    type Two = Pair<Single<CityBlock>, Single<Hamming>>;

    // A channel of one byte and a channel of two. A store of two slots has 98 bytes: accession numbers from 0, rows from
    // 4, pivot rows from 10, distances from 34, those of slot 1 from 66.
    fn two() -> Two {
        Pair {
            first: Single {
                metric: CityBlock::new(0),
            },
            second: Single {
                metric: Hamming::new(1),
            },
        }
    }

    #[test]
    fn new_zeroes_what_is_stated(rt: HostRuntime) -> Result<(), Fail> {
        let mut store = [255u8; 100];
        let _index = PivotIndex::new(two(), 2, &mut store)?;
        for x in &store[0..98] {
            assert_eq!(rt; *x, 0);
        }
        assert_eq!(rt; store[98], 255);
        assert_eq!(rt; store[99], 255);
        Ok(())
    }

    #[test]
    fn distances_are_stored(rt: HostRuntime) -> Result<(), Fail> {
        let mut store = [255u8; 100];
        let mut index = PivotIndex::new(two(), 2, &mut store)?;
        index.insert(&mut store, 7, &[1, 0, 0])?;
        index.add_pivot(&mut store, 0, 7)?;
        index.insert(&mut store, 9, &[4, 3, 0])?;
        index.add_pivot(&mut store, 1, 7)?;
        assert_eq!(rt; index.find(&store, 9), Some(1));
        assert_eq!(rt; store[67], 3);
        assert_eq!(rt; store[83], 2);
        assert_eq!(rt; store[99], 255);
        Ok(())
    }

    #[test]
    fn last_patch_closes_the_gap(rt: HostRuntime) -> Result<(), Fail> {
        let mut store = [255u8; 98];
        let mut index = PivotIndex::new(two(), 2, &mut store)?;
        index.insert(&mut store, 7, &[1, 0, 0])?;
        index.insert(&mut store, 9, &[4, 3, 0])?;
        index.remove(&mut store, 7)?;
        assert_eq!(rt; index.find(&store, 9), Some(0));
        assert_eq!(rt; store[4], 4);
        assert_eq!(rt; store[7], 0);
        index.remove(&mut store, 9)?;
        assert_eq!(rt; index.find(&store, 9), None);
        assert_eq!(rt; store[1], 0);
        Ok(())
    }

    #[test]
    fn pivot_outlives_its_patch(rt: HostRuntime) -> Result<(), Fail> {
        let mut store = [255u8; 98];
        let mut index = PivotIndex::new(two(), 2, &mut store)?;
        index.insert(&mut store, 7, &[1, 0, 0])?;
        index.add_pivot(&mut store, 0, 7)?;
        index.remove(&mut store, 7)?;
        index.insert(&mut store, 9, &[4, 3, 0])?;
        assert_eq!(rt; store[10], 1);
        assert_eq!(rt; store[35], 3);
        index.remove_pivot(&mut store, 0, 0)?;
        assert_eq!(rt; store[10], 0);
        assert_eq!(rt; store[35], 0);
        Ok(())
    }

    #[test]
    fn capacity_of_none_and_of_all(rt: HostRuntime) -> Result<(), Fail> {
        let one = Single {
            metric: CityBlock::new(0),
        };
        let mut store = [255u8; 77832];
        let mut index = PivotIndex::new(one, 0, &mut store)?;
        assert_eq!(rt;
            index.insert(&mut store, 7, &[1]).err(),
            Some(Refusal::Full)
        );
        assert_eq!(rt; store[8], 255);
        assert_eq!(rt;
            PivotIndex::new(one, 4097, &mut store).err(),
            Some(Refusal::BadStore)
        );
        let mut index = PivotIndex::new(one, 4096, &mut store)?;
        assert_eq!(rt; store[77831], 0);
        index.insert(&mut store, 7, &[1])?;
        Ok(())
    }

    fn add_eight(index: &mut PivotIndex<Two>, store: &mut [u8]) -> Result<(), Refusal> {
        for _ in 0..8 {
            index.add_pivot(store, 1, 7)?;
        }
        Ok(())
    }

    #[test]
    fn ninth_pivot(rt: HostRuntime) -> Result<(), Fail> {
        let mut store = [255u8; 98];
        let mut index = PivotIndex::new(two(), 2, &mut store)?;
        index.insert(&mut store, 7, &[1, 0, 0])?;
        add_eight(&mut index, &mut store)?;
        assert_eq!(rt; index.add_pivot(&mut store, 1, 7), Err(Refusal::PivotsFull));
        index.remove_pivot(&mut store, 1, 7)?;
        assert_eq!(rt;
            index.remove_pivot(&mut store, 1, 7),
            Err(Refusal::NoSuchPivot)
        );
        Ok(())
    }

    #[test]
    fn refusals_of_patches(rt: HostRuntime) -> Result<(), Fail> {
        let mut store = [255u8; 98];
        let mut short = [255u8; 97];
        let mut index = PivotIndex::new(two(), 2, &mut store)?;
        assert_eq!(rt;
            index.insert(&mut short, 7, &[1, 0]),
            Err(Refusal::BadStore)
        );
        assert_eq!(rt;
            index.insert(&mut store, 7, &[1, 0]),
            Err(Refusal::WrongRowsLength)
        );
        index.insert(&mut store, 7, &[1, 0, 0])?;
        assert_eq!(rt;
            index.insert(&mut store, 7, &[1, 0, 0]),
            Err(Refusal::AlreadyHeld)
        );
        assert_eq!(rt; index.remove(&mut short, 7), Err(Refusal::BadStore));
        assert_eq!(rt; index.remove(&mut store, 8), Err(Refusal::NotHeld));
        assert_eq!(rt; index.find(&short, 7), None);
        Ok(())
    }

    #[test]
    fn refusals_of_pivots(rt: HostRuntime) -> Result<(), Fail> {
        let mut store = [255u8; 98];
        let mut short = [255u8; 97];
        let mut index = PivotIndex::new(two(), 2, &mut store)?;
        assert_eq!(rt; index.add_pivot(&mut short, 2, 7), Err(Refusal::BadStore));
        assert_eq!(rt;
            index.add_pivot(&mut store, 2, 7),
            Err(Refusal::NoSuchChannel)
        );
        assert_eq!(rt; index.add_pivot(&mut store, 0, 7), Err(Refusal::NotHeld));
        assert_eq!(rt;
            index.remove_pivot(&mut short, 2, 0),
            Err(Refusal::BadStore)
        );
        assert_eq!(rt;
            index.remove_pivot(&mut store, 2, 0),
            Err(Refusal::NoSuchChannel)
        );
        Ok(())
    }

    #[test]
    fn refusals_of_new(rt: HostRuntime) {
        let mut store = [255u8; 97];
        let one = Single {
            metric: Hamming::new(0),
        };
        let pair = Pair {
            first: one,
            second: one,
        };
        let four = Pair {
            first: pair,
            second: pair,
        };
        let eight = Pair {
            first: four,
            second: four,
        };
        let nine = Pair {
            first: eight,
            second: one,
        };
        assert_eq!(rt;
            PivotIndex::new(nine, 4097, &mut store).err(),
            Some(Refusal::TooManyChannels)
        );
        assert_eq!(rt;
            PivotIndex::new(two(), 2, &mut store).err(),
            Some(Refusal::BadStore)
        );
        assert_eq!(rt; store[0], 255);
    }
}
