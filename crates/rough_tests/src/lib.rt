// Tests of the rough cut over the climbing book and the sheet.

#![tactic(auto)]

#[cfg(test)]
mod tests {
    use book::{ClimbingBook, Sheet};
    use plan::Plan;
    use rough::{RoughFault, rough, sample_counts};

    // Seven terms, the broader ones of 1 to 6 being 0 0 1 1 2 2; pairs (3, 4), (4, 5), (5, 6), (1, 3).
    const SAMPLE: [u8; 9] = [3, 129, 0, 128, 37, 39, 37, 184, 176];

    // Four terms, 0 above the others; pairs (1, 2), (2, 3), both of rank 0.
    const TIED: [u8; 5] = [2, 0, 128, 64, 107];

    #[test]
    fn sample_is_cut(rt: HostRuntime) {
        let mut plan = Plan::fresh();
        assert!(rt; plan.read(&SAMPLE).is_ok());
        let book = ClimbingBook::new(&plan);
        let mut links = [9; 6];
        let mut apart = [9; 3];
        assert!(rt; rough(&book, &mut links, &mut apart) == Ok(sample_counts()));
        assert_eq!(rt; links, [3, 4, 5, 6, 9, 9]);
        assert_eq!(rt; apart, [0, 2, 9]);
    }

    #[test]
    fn lower_number_first(rt: HostRuntime) {
        let mut plan = Plan::fresh();
        assert!(rt; plan.read(&TIED).is_ok());
        let book = ClimbingBook::new(&plan);
        let mut links = [0; 2];
        let mut apart = [9; 1];
        assert!(rt; rough(&book, &mut links, &mut apart) == Ok((2, 1)));
        assert_eq!(rt; links, [1, 2]);
        assert_eq!(rt; apart, [0]);
    }

    #[test]
    fn short_slices_are_refused(rt: HostRuntime) {
        let mut plan = Plan::fresh();
        assert!(rt; plan.read(&SAMPLE).is_ok());
        let book = ClimbingBook::new(&plan);
        let mut narrow = [9; 3];
        let mut links = [9; 4];
        let mut apart = [9; 1];
        assert!(rt; rough(&book, &mut narrow, &mut apart) == Err(RoughFault::LinksBuffer(4)));
        assert!(rt; rough(&book, &mut links, &mut apart) == Err(RoughFault::PairsBuffer(2)));
        assert_eq!(rt; links, [9; 4]);
        assert_eq!(rt; apart, [9]);
    }

    // The first two cases over the sheet. One function over both books would take an `Abort` bound, which no function gains.
    #[test]
    fn both_books_are_cut_alike(rt: HostRuntime) {
        let mut plan = Plan::fresh();
        assert!(rt; plan.read(&SAMPLE).is_ok());
        let mut links = [9; 6];
        let mut apart = [9; 3];
        assert!(rt; rough(&Sheet::new(&plan), &mut links, &mut apart) == Ok((4, 2)));
        assert_eq!(rt; links, [3, 4, 5, 6, 9, 9]);
        assert_eq!(rt; apart, [0, 2, 9]);
        assert!(rt; plan.read(&TIED).is_ok());
        assert!(rt; rough(&Sheet::new(&plan), &mut links, &mut apart) == Ok((2, 1)));
        assert_eq!(rt; links, [1, 2, 5, 6, 9, 9]);
        assert_eq!(rt; apart, [0, 2, 9]);
    }
}
