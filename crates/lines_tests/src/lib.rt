// Tests of the program as a whole: files and lines in, printed text out.
#![tactic(auto)]

#[cfg(test)]
mod tests {
    use book::{RoadBook, Sheet};
    use lines::mark;
    use plan::Plan;
    use rough::RoughFault;
    use std::alloc::Global;
    use std::process::Abort;
    use std::test::Fail;
    use working::{Step, Working};

    // seven terms; broader terms 0, 0, 1, 1, 2, 2; pairs (3,4), (4,5), (5,6), (1,3); budget 2
    const SAMPLE: &[u8] = &[0x03, 0x81, 0x00, 0x80, 0x25, 0x27, 0x25, 0xB8, 0xB0];

    // the same with budget 1
    const TIGHT: &[u8] = &[0x03, 0x81, 0x00, 0x40, 0x25, 0x27, 0x25, 0xB8, 0xB0];

    fn prints(rt: &impl Abort, heap: Global, cases: &[(&[u8], &[u8], &str)]) -> Result<(), Fail> {
        for (file, input, text) in cases {
            let printed = mark(heap, file, input)?;
            assert_eq!(rt; printed.as_str(), *text);
        }
        Ok(())
    }

    #[test]
    fn damaged_files(rt: HostRuntime) -> Result<(), Fail> {
        prints(
            &rt,
            rt.alloc(),
            &[
                (&[], b"i 1\n", "no 0 1 0\n"),
                (&[0x03, 0x81, 0x00], b"i 1\n", "no 0 1 24\n"),
                (&[0x03, 0x81, 0x00, 0x80, 0x25], b"i 1\n", "no 0 1 40\n"),
                (&[0x00, 0x00, 0x00, 0x00], b"i 1\n", "no 0 2 0\n"),
                (&[0x80, 0x80, 0x00, 0x00], b"i 1\n", "no 0 2 0\n"),
                (&[0x00, 0xC0, 0x40, 0x00], b"i 1\n", "no 0 2 9\n"),
                (&[0x01, 0x00, 0x00, 0x20], b"i 1\n", "no 0 3 1\n"),
                (&[0x01, 0x00, 0x40, 0x00], b"i 1\n", "no 0 4 0\n"),
                (&[0x00, 0x80, 0x00, 0x01], b"i 1\n", "no 0 5 31\n"),
                (&[0x00, 0x80, 0x00, 0x00, 0x00], b"i 1\n", "no 0 5 32\n"),
                (&[0x00, 0x80, 0x00, 0x00], b"", ""),
            ],
        )
    }

    #[test]
    fn lines_of_no_program(rt: HostRuntime) -> Result<(), Fail> {
        prints(
            &rt,
            rt.alloc(),
            &[
                (SAMPLE, b"", ""),
                (SAMPLE, b"\n", "no 1 16 1\n"),
                (SAMPLE, b"i", "no 1 16 1\n"),
                (SAMPLE, b"i 1 2", "no 1 16 1\n"),
                (SAMPLE, b"i  1", "no 1 16 1\n"),
                (SAMPLE, b"i 01", "no 1 16 1\n"),
                (SAMPLE, b"i 65536", "no 1 16 1\n"),
                (SAMPLE, b"i 65535\ni 1 ", "no 1 8 65535\nno 2 16 2\n"),
                (SAMPLE, b"x 1\ny", "no 1 16 1\nno 2 16 2\n"),
            ],
        )
    }

    #[test]
    fn steps_on_the_sample(rt: HostRuntime) -> Result<(), Fail> {
        prints(
            &rt,
            rt.alloc(),
            &[
                (
                    SAMPLE,
                    b"u 3 3\ne 1 2\ne 2 4\ne 4 5\nu 5 1\ni 6\n",
                    "left 1\nleft 1\nleft 1\nleft 1\nleft 0\nleft 0\n",
                ),
                (
                    SAMPLE,
                    b"p 3 0\nn 1 2 3\nf 1 2 3",
                    "left 2\nno 2 11 1\nno 3 7 2\n",
                ),
                (
                    SAMPLE,
                    b"u 3 3\nn 1 2\nf 1 1 2\no 5 1 2",
                    "left 1\nno 2 11 1\nno 3 9 1\nleft 0\n",
                ),
                (
                    TIGHT,
                    b"u 3 3\nu 5 1\nf 1 2\nn 2",
                    "left 0\nno 2 10 5\nleft 0\nnone\n",
                ),
            ],
        )
    }

    // One line for each way in which each step is refused.
    #[test]
    fn refused_steps(rt: HostRuntime) -> Result<(), Fail> {
        prints(
            &rt,
            rt.alloc(),
            &[
                (SAMPLE, b"i 0\ni 7\ni 3", "no 1 8 0\nno 2 8 7\nno 3 11 3\n"),
                (
                    SAMPLE,
                    b"e 7 1\ne 1 7\ne 1 1\ne 3 4",
                    "no 1 8 7\nno 2 8 7\nno 3 9 1\nno 4 11 3\n",
                ),
                (
                    SAMPLE,
                    b"u 7 0\nu 3 4\nu 3 0",
                    "no 1 8 7\nno 2 8 4\nno 3 11 3\n",
                ),
                (
                    SAMPLE,
                    b"p 4 0\np 0 4\np 0 0\np 0 3",
                    "no 1 8 4\nno 2 8 4\nno 3 9 0\nno 4 11 0\n",
                ),
                (
                    SAMPLE,
                    b"f 0 1 2\nf 4 1 2 3\nf 0 1 2 9\nf 0 1 2 0\nf 0 1 1 2\nf 3 0 1 2",
                    "no 1 7 2\nno 2 8 4\nno 3 8 9\nno 4 9 0\nno 5 9 1\nno 6 11 3\n",
                ),
                (
                    SAMPLE,
                    b"o 3 0\no 7 0 1 2\no 3 0 1 9\no 3 0 3 0\no 3 0 1 3",
                    "no 1 7 1\nno 2 8 7\nno 3 8 9\nno 4 9 0\nno 5 11 3\n",
                ),
                (
                    SAMPLE,
                    b"n 0\nn 0 1 9\nn 0 1 0\nn 0 1 2",
                    "no 1 7 1\nno 2 8 9\nno 3 9 0\nno 4 11 0\n",
                ),
                (
                    TIGHT,
                    b"u 3 3\nu 5 1\no 5 1",
                    "left 0\nno 2 10 5\nno 3 10 5\n",
                ),
                (
                    TIGHT,
                    b"n 2 3\ni 1\ne 1 2\nu 3 3\np 3 0\nf 1 0 2\no 1 1 2\nn 2 3",
                    "none\nno 2 6 0\nno 3 6 0\nno 4 6 0\nno 5 6 0\nno 6 6 0\nno 7 6 0\nno 8 6 0\n",
                ),
            ],
        )
    }

    fn unit_road(link: u16, pair: u16) -> Step<'static> {
        Step::UnitRoad(link, pair)
    }

    fn dominated_link(link: u16, by: u16) -> Step<'static> {
        Step::DominatedLink(link, by)
    }

    // A working over another's rest takes its marks over, and adds none to it.
    #[test]
    fn trial_over_a_rest(rt: HostRuntime) {
        let mut plan = Plan::fresh();
        assert!(rt; plan.read(SAMPLE).is_ok());
        let sheet = Sheet::new(&plan);
        let mut working = Working::lay(&sheet, 2);
        assert!(rt; working.step(unit_road(3, 3)).is_ok());
        let mut trial = Working::lay(&working, working.left());
        assert!(rt; trial.step(dominated_link(1, 2)).is_ok());
        assert!(rt; !trial.is_live(3) && !trial.is_open(0) && trial.is_open(1));
        assert!(rt; !trial.is_live(1) && working.is_live(1));
        assert_eq!(rt; trial.left(), 1);
    }

    // A rough cut is given before and after steps, and in a working that has ended, and leaves all as it was.
    #[test]
    fn rough_cuts_of_rests(rt: HostRuntime) {
        let mut plan = Plan::fresh();
        assert!(rt; plan.read(SAMPLE).is_ok());
        let sheet = Sheet::new(&plan);
        let mut links = [9; 5];
        let mut apart = [9; 3];
        let mut working = Working::lay(&sheet, 2);
        assert!(rt; working.rough(&mut links, &mut apart) == Ok((4, 2)));
        assert!(rt; working.step(unit_road(3, 3)).is_ok());
        assert!(rt; working.rough(&mut links, &mut apart) == Ok((2, 1)));
        assert_eq!(rt; links, [5, 6, 5, 6, 9]);
        assert_eq!(rt; apart, [2, 2, 9]);
        let mut narrow = [9; 1];
        assert!(rt; working.rough(&mut narrow, &mut apart) == Err(RoughFault::LinksBuffer(2)));
        assert_eq!(rt; narrow, [9]);
        let mut ended = Working::lay(&sheet, 1);
        assert!(rt; ended.step(Step::DisjointPairs(&[2, 3])).is_ok());
        assert!(rt; ended.rough(&mut links, &mut apart) == Ok((4, 2)));
        assert_eq!(rt; working.left(), 1);
    }
}
