#![tactic(auto)]

// Tests of row trees and excerpts.
#[cfg(test)]
mod tests {
    use excerpt::Excerpt;
    use row_tree::row_tree::RowTree;
    use row_tree::write::write_rows;
    use std::alloc::{AllocError, Global};
    use std::process::Abort;
    use std::test::Fail;
    use stored::row::StoredRow;
    use tree::Tree;

    // card(step(warn(#)) step(step(warn)) warn) under its root, with the labels 2 card, 3 step, 4 warn and 1 for a text
    const EXAMPLE: [StoredRow; 9] = [
        StoredRow {
            label: 0,
            distance: 0,
            size: 9,
        },
        StoredRow {
            label: 2,
            distance: 1,
            size: 8,
        },
        StoredRow {
            label: 3,
            distance: 1,
            size: 3,
        },
        StoredRow {
            label: 4,
            distance: 1,
            size: 2,
        },
        StoredRow {
            label: 1,
            distance: 1,
            size: 1,
        },
        StoredRow {
            label: 3,
            distance: 4,
            size: 3,
        },
        StoredRow {
            label: 3,
            distance: 1,
            size: 2,
        },
        StoredRow {
            label: 4,
            distance: 1,
            size: 1,
        },
        StoredRow {
            label: 4,
            distance: 7,
            size: 1,
        },
    ];

    // What a node answers: label, first child, next sibling and size.
    #[derive(Clone, Copy, PartialEq, Eq, Debug)]
    struct Answer {
        label: u16,
        first: Option<usize>,
        next: Option<usize>,
        size: usize,
    }

    const ANSWERS: [Answer; 10] = [
        Answer {
            label: 0,
            first: Some(1),
            next: None,
            size: 9,
        },
        Answer {
            label: 2,
            first: Some(2),
            next: None,
            size: 8,
        },
        Answer {
            label: 3,
            first: Some(3),
            next: Some(5),
            size: 3,
        },
        Answer {
            label: 4,
            first: Some(4),
            next: None,
            size: 2,
        },
        Answer {
            label: 1,
            first: None,
            next: None,
            size: 1,
        },
        Answer {
            label: 3,
            first: Some(6),
            next: Some(8),
            size: 3,
        },
        Answer {
            label: 3,
            first: Some(7),
            next: None,
            size: 2,
        },
        Answer {
            label: 4,
            first: None,
            next: None,
            size: 1,
        },
        Answer {
            label: 4,
            first: None,
            next: None,
            size: 1,
        },
        Answer {
            label: 65535,
            first: None,
            next: None,
            size: 0,
        },
    ];

    fn asked<T: Tree>(tree: &T, v: usize) -> Answer {
        Answer {
            label: tree.label(v),
            first: tree.first_child(v),
            next: tree.next_sibling(v),
            size: tree.size(v),
        }
    }

    // The answers at every node of the tree and at the number after the last.
    fn answers_are<T: Tree>(rt: &impl Abort, tree: &T, expected: &[Answer]) {
        assert_eq!(rt; tree.count().saturating_add(1), expected.len());
        for (v, a) in expected.iter().enumerate() {
            assert_eq!(rt; asked(tree, v), *a, "the answers at a node");
        }
        assert_eq!(rt;
            asked(tree, usize::MAX),
            Answer {
                label: 65535,
                first: None,
                next: None,
                size: 0,
            }
        );
    }

    fn load<'a>(tree: &mut RowTree<'a>, rows: &'a [StoredRow]) -> Result<(), Fail> {
        tree.load(rows)
            .map_err(|_| Fail::new("stored rows of a tree were refused"))
    }

    // Stored rows that are of no tree are refused, and the tree that was there stays.
    fn refused(rt: &impl Abort, rows: &[StoredRow]) -> Result<(), Fail> {
        let mut tree = RowTree::lone();
        match tree.load(rows) {
            Ok(()) => Err(Fail::new("stored rows of no tree were loaded")),
            Err(f) => {
                assert_eq!(rt; f.code(), 14);
                assert_eq!(rt; tree.count(), 1);
                Ok(())
            }
        }
    }

    #[test]
    fn example_answers(rt: HostRuntime) -> Result<(), Fail> {
        let mut tree = RowTree::lone();
        load(&mut tree, &EXAMPLE)?;
        answers_are(&rt, &tree, &ANSWERS);
        Ok(())
    }

    #[test]
    fn lone_root(rt: HostRuntime) {
        let tree = RowTree::lone();
        let expected = [
            Answer {
                label: 0,
                first: None,
                next: None,
                size: 1,
            },
            Answer {
                label: 65535,
                first: None,
                next: None,
                size: 0,
            },
        ];
        answers_are(&rt, &tree, &expected);
    }

    #[test]
    fn excerpt_of_excerpt(rt: HostRuntime) -> Result<(), Fail> {
        let mut tree = RowTree::lone();
        load(&mut tree, &EXAMPLE)?;
        let Ok(card) = Excerpt::new(&tree, 1) else {
            return Err(Fail::new("node 1 was refused"));
        };
        let Ok(step) = Excerpt::new(&card, 4) else {
            return Err(Fail::new("node 4 of the excerpt was refused"));
        };
        let expected = [
            Answer {
                label: 0,
                first: Some(1),
                next: None,
                size: 3,
            },
            Answer {
                label: 3,
                first: Some(2),
                next: None,
                size: 2,
            },
            Answer {
                label: 4,
                first: None,
                next: None,
                size: 1,
            },
            Answer {
                label: 65535,
                first: None,
                next: None,
                size: 0,
            },
        ];
        answers_are(&rt, &step, &expected);
        match Excerpt::new(&card, 8) {
            Ok(_) => Err(Fail::new("an excerpt at no node was made")),
            Err(f) => {
                assert_eq!(rt; f.code(), 15);
                Ok(())
            },
        }
    }

    #[test]
    fn damage_refused(rt: HostRuntime) -> Result<(), Fail> {
        refused(&rt, &[])?;
        // a distance, a size, label 514, a text with a child, a second depth 0
        let damage = [
            (
                5,
                StoredRow {
                    label: 3,
                    distance: 3,
                    size: 3,
                },
            ),
            (
                5,
                StoredRow {
                    label: 3,
                    distance: 4,
                    size: 2,
                },
            ),
            (
                8,
                StoredRow {
                    label: 514,
                    distance: 7,
                    size: 1,
                },
            ),
            (
                6,
                StoredRow {
                    label: 1,
                    distance: 1,
                    size: 2,
                },
            ),
            (
                8,
                StoredRow {
                    label: 4,
                    distance: 0,
                    size: 1,
                },
            ),
            (
                0,
                StoredRow {
                    label: 0,
                    distance: 0,
                    size: 8,
                },
            ),
            (
                0,
                StoredRow {
                    label: 1,
                    distance: 0,
                    size: 9,
                },
            ),
            (
                4,
                StoredRow {
                    label: 0,
                    distance: 1,
                    size: 1,
                },
            ),
            (
                7,
                StoredRow {
                    label: 4,
                    distance: 65535,
                    size: 65535,
                },
            ),
        ];
        for (v, row) in damage {
            let mut rows = EXAMPLE;
            if let Some(place) = rows.get_mut(v) {
                *place = row;
            }
            refused(&rt, &rows)?;
        }
        Ok(())
    }

    // A chain of n nodes, each the only child of the one before.
    fn chain(heap: Global, n: u16) -> Result<Vec<StoredRow>, AllocError> {
        let mut rows = Vec::new(heap);
        for v in 0..n {
            let label = if v == 0 { 0 } else { 2 };
            let distance = if v == 0 { 0 } else { 1 };
            rows.push(StoredRow {
                label,
                distance,
                size: n - v,
            })?;
        }
        Ok(rows)
    }

    // A comb of 2 k + 1 nodes: each node of a spine has a text before the next.
    fn comb(heap: Global, k: u16) -> Result<Vec<StoredRow>, AllocError> {
        let mut rows = Vec::new(heap);
        let nodes = k.saturating_mul(2).saturating_add(1);
        rows.push(StoredRow {
            label: 0,
            distance: 0,
            size: nodes,
        })?;
        for i in 0..k {
            let left = (k - i).saturating_mul(2).saturating_sub(1);
            rows.push(StoredRow {
                label: 1,
                distance: 1,
                size: 1,
            })?;
            rows.push(StoredRow {
                label: 2,
                distance: 2,
                size: left,
            })?;
        }
        Ok(rows)
    }

    // Stored rows load, and what is written from the tree are the same rows; one row less is too small a buffer.
    fn round_trip(rt: &impl Abort, heap: Global, rows: &[StoredRow]) -> Result<(), Fail> {
        let mut tree = RowTree::lone();
        load(&mut tree, rows)?;
        let n = rows.len();
        assert_eq!(rt; tree.count(), n);
        let mut out = vec![in heap; StoredRow {
            label: 7,
            distance: 7,
            size: 7
        }; n]?;
        let Ok(written) = write_rows(&tree, out.as_mut_slice()) else {
            return Err(Fail::new("a buffer that is large enough was refused"));
        };
        assert_eq!(rt; written, n);
        assert_eq!(rt; out.as_slice(), rows);
        let mut again = RowTree::lone();
        load(&mut again, out.as_slice())?;
        let mut short = vec![in heap; StoredRow {
            label: 7,
            distance: 7,
            size: 7
        }; n.saturating_sub(1)]?;
        match write_rows(&tree, short.as_mut_slice()) {
            Ok(_) => Err(Fail::new("a buffer that is too small was taken")),
            Err(f) => {
                assert_eq!(rt; f.code(), 11);
                Ok(())
            },
        }
    }

    #[test]
    fn large_trees(rt: HostRuntime) -> Result<(), Fail> {
        let heap = rt.alloc();
        round_trip(&rt, heap, chain(heap, 8192)?.as_slice())?;
        round_trip(&rt, heap, comb(heap, 4095)?.as_slice())?;
        let long = chain(heap, 8193)?;
        refused(&rt, long.as_slice())
    }
}
