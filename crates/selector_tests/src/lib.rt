#![tactic(auto)]

// Tests of the selector: phases, refusals, and calls in any order against a plain evaluation.
#[cfg(test)]
mod tests {
    use either::{Either, Left, Right};
    use history::calls::{Answer, Call, Reply};
    use history::held::Only;
    use row_tree::row_tree::RowTree;
    use run::kinds::Kinds;
    use run::run::run;
    use selector::fault::Fault;
    use selector::selector::Selector;
    use stored::row::StoredRow;
    use tally::count::Count;
    use tally::extent::{Ends, Extent};
    use tally::leading::LeadingTwelve;

    const fn row(label: u16, distance: u16, size: u16) -> StoredRow {
        StoredRow {
            label,
            distance,
            size,
        }
    }

    // card(step(warn(#)) step(step(warn)) warn) under its root, with the labels 2 card, 3 step, 4 warn and 1 for a text
    fn example() -> [StoredRow; 9] {
        [
            row(0, 0, 9),
            row(2, 1, 8),
            row(3, 1, 3),
            row(4, 1, 2),
            row(1, 1, 1),
            row(3, 4, 3),
            row(3, 1, 2),
            row(4, 1, 1),
            row(4, 7, 1),
        ]
    }

    // Elements 4 below an element 3. Deciding states: LABEL 3, LABEL 4, TRUE. Sending states: the start, looking for an
    // element 3 further on, looking for an element 4 below one.
    const PROGRAM: [u8; 37] = [
        0x11, 0, 3, 0x1f, 0x11, 0, 4, 0x1f, 0x12, 0x1f, 0x20, 2, 0x21, 1, 0x2f, 0x20, 2, 0x22, 1,
        0x21, 1, 0x20, 0, 0x21, 2, 0x2f, 0x20, 2, 0x22, 2, 0x21, 2, 0x20, 1, 0x24, 0x2f, 0xff,
    ];

    fn label_at(rows: &[StoredRow], v: usize) -> u16 {
        rows.get(v).map_or(0, |row| row.label)
    }

    // the distance to the parent, 0 where there is none
    fn distance_at(rows: &[StoredRow], v: usize) -> usize {
        rows.get(v).map_or(0, |row| row.distance as usize)
    }

    // Whether node v has label 4 and an ancestor of label 3, by the parents.
    fn selected(rows: &[StoredRow], v: usize) -> bool {
        if label_at(rows, v) != 4 {
            return false;
        }
        let mut at = v;
        let mut found = false;
        for _ in 0..8 {
            at = at.saturating_sub(distance_at(rows, at));
            found = found || label_at(rows, at) == 3;
        }
        found
    }

    fn counted(rows: &[StoredRow], lo: usize, hi: usize) -> u16 {
        let count = (lo..hi).filter(|v| selected(rows, *v)).count();
        u16::try_from(count).unwrap_or(u16::MAX)
    }

    // What is known of the calls so far: whether a program is loaded, and the sums of the granted rises and falls.
    #[derive(Clone, Copy)]
    struct Sums {
        loaded: bool,
        risen: usize,
        fallen: usize,
    }

    fn code<V>(answer: Result<V, Fault>) -> u8
    where
        V: Drop,
    {
        match answer {
            Ok(_) => 0,
            Err(fault) => fault.code(),
        }
    }

    // the code that a rise or a fall has to have, with 9 nodes
    fn due(loaded: bool, on: bool) -> u8 {
        if !loaded {
            17
        } else if !on {
            20
        } else {
            0
        }
    }

    // One call by two numbers: whether it answers as the sums say, and the sums after it.
    fn turn(
        selector: &mut Selector,
        tree: &RowTree<'_>,
        rows: &[StoredRow],
        work: &mut [u64],
        sums: Sums,
        pick: u8,
        k: u8,
    ) -> (bool, Sums) {
        let n = k as usize % 12;
        match pick % 8 {
            0 => {
                let right = code(selector.load(tree, &PROGRAM)) == 0;
                (
                    right,
                    Sums {
                        loaded: true,
                        risen: 0,
                        fallen: 0,
                    },
                )
            }
            1..=3 => {
                let want = due(sums.loaded, sums.risen < 9);
                let right = code(selector.rise(tree, work, n)) == want;
                let risen = if want == 0 {
                    sums.risen.saturating_add(n)
                } else {
                    sums.risen
                };
                (right, Sums { risen, ..sums })
            }
            4..=6 => {
                let want = due(sums.loaded, sums.risen >= 9 && sums.fallen < 9);
                let right = code(selector.fall(tree, work, n)) == want;
                let fallen = if want == 0 {
                    sums.fallen.saturating_add(n)
                } else {
                    sums.fallen
                };
                (right, Sums { fallen, ..sums })
            }
            _ => (tallies(selector, tree, rows, work, sums, n), sums),
        }
    }

    // whether a tally up to node n answers as the sums say
    fn tallies(
        selector: &Selector,
        tree: &RowTree<'_>,
        rows: &[StoredRow],
        work: &[u64],
        sums: Sums,
        n: usize,
    ) -> bool {
        let want = due(sums.loaded, sums.risen >= 9 && sums.fallen >= 9);
        let answer: Result<Count, Fault> = selector.tally(tree, work, 1, n);
        match answer {
            Ok(count) => want == 0 && n >= 1 && n <= 9 && count.count == counted(rows, 1, n),
            Err(fault) => {
                let code = fault.code();
                if want == 0 {
                    code == 21 && (n < 1 || n > 9)
                } else {
                    code == want
                }
            }
        }
    }

    // calls in an order that the first number gives
    fn many_turns(first: u8, work: &mut [u64]) -> bool {
        let rows = example();
        let mut tree = RowTree::lone();
        if tree.load(&rows).is_err() {
            return false;
        }
        let mut selector = Selector::new();
        let mut sums = Sums {
            loaded: false,
            risen: 0,
            fallen: 0,
        };
        let mut right = true;
        let mut dice = first;
        for _ in 0..60 {
            dice = dice.wrapping_mul(77).wrapping_add(41);
            let pick = dice / 16;
            dice = dice.wrapping_mul(77).wrapping_add(41);
            let (same, next) = turn(&mut selector, &tree, &rows, work, sums, pick, dice / 8);
            right = right && same;
            sums = next;
        }
        right
    }

    #[test]
    fn any_order(rt: HostRuntime) {
        for first in 0..100 {
            let mut empty = [0; 9];
            assert!(rt; many_turns(first, &mut empty));
            let mut full = [u64::MAX; 10];
            assert!(rt; many_turns(first, &mut full));
        }
    }

    type Three = Either<Count, Either<Extent, Only<LeadingTwelve>>>;

    fn shown_tally(three: Three) -> usize {
        match three {
            Left(count) => 1000 + count.count as usize,
            Right(Left(None)) => 2000,
            Right(Left(Some(Ends { first, last }))) => 2000 + 10 * first as usize + last as usize,
            Right(Right(only)) => 3000 + only.0.nodes().len() % 20,
        }
    }

    // a number for an answer: that of a refusal, the number left, or the kind of a tally and what it tells
    fn shown(answer: Answer<Three>) -> usize {
        match answer {
            Err(fault) => fault.code() as usize,
            Ok(Reply::Loaded) => 100,
            Ok(Reply::Left(n)) => n,
            Ok(Reply::Value(three)) => shown_tally(three),
        }
    }

    #[test]
    fn three_kinds_in_one_list(rt: HostRuntime) {
        let rows = example();
        let mut tree = RowTree::lone();
        assert!(rt; tree.load(&rows).is_ok());
        let mut work = [u64::MAX; 9];
        let calls = [
            Call::Load(&PROGRAM),
            Call::Rise(4),
            Call::Rise(5),
            Call::Fall(9),
            Call::Tally {
                kind: 0,
                lo: 4,
                hi: 9,
            },
            Call::Tally {
                kind: 1,
                lo: 0,
                hi: 9,
            },
            Call::Tally {
                kind: 2,
                lo: 0,
                hi: 9,
            },
            Call::Tally {
                kind: 0,
                lo: 0,
                hi: 10,
            },
        ];
        let mut answers: [Answer<Three>; 8] = [Ok(Reply::Loaded); 8];
        assert_eq!(rt; run(&tree, &mut work, &calls, &mut answers), 8);
        assert_eq!(rt; shown(answers[1]), 5);
        assert_eq!(rt; shown(answers[3]), 0);
        assert_eq!(rt; shown(answers[4]), 1001);
        assert_eq!(rt; shown(answers[5]), 2037);
        assert_eq!(rt; shown(answers[6]), 3002);
        assert_eq!(rt; shown(answers[7]), 21);
    }

    #[test]
    fn refusals(rt: HostRuntime) {
        let rows = example();
        let mut tree = RowTree::lone();
        assert!(rt; tree.load(&rows).is_ok());
        let other = RowTree::lone();
        let mut small = [0; 8];
        let mut work = [0; 9];
        let mut selector = Selector::new();
        assert_eq!(rt; code(selector.rise(&tree, &mut work, 1)), 17);
        assert_eq!(rt; code(selector.load(&tree, &[0xff])), 16);
        assert_eq!(rt; code(selector.load(&tree, &PROGRAM)), 0);
        assert_eq!(rt; code(selector.rise(&other, &mut work, 1)), 18);
        assert_eq!(rt; code(selector.rise(&tree, &mut small, 1)), 19);
        assert_eq!(rt; code(selector.fall(&tree, &mut work, 1)), 20);
        assert_eq!(rt; code(selector.load(&tree, &[0x12])), 16);
        assert_eq!(rt; code(selector.rise(&tree, &mut work, 1)), 0);
    }
}
