#![tactic(auto)]

// Tests of the check of programs: byte strings that break one rule each.
#[cfg(test)]
mod tests {
    use commands::node::Node;
    use program::check::check as check_program;
    use program::deciding::decided;

    fn grants(bytes: &[u8]) -> bool {
        check_program(bytes).is_ok()
    }

    // the front of the bytes, so many
    fn grants_front(bytes: &[u8], length: usize) -> bool {
        bytes.get(..length).is_some_and(grants)
    }

    #[test]
    fn grants_programs(rt: HostRuntime) {
        // TRUE DEFINE; DONE; END
        assert!(rt; grants(&[0x12, 0x1f, 0x2f, 0xff]));
        // KIND 2 DEFINE; WHEN 0 MARK DONE; END
        assert!(rt; grants(&[0x10, 2, 0x1f, 0x20, 0, 0x24, 0x2f, 0xff]));
        // FIRST 1 NEXT 0 OR DEFINE, HERE 0 NOT DEFINE; WHEN 1 DOWN 1 ON 0 STAY 1 DONE, DONE; END
        assert!(rt;
            grants(&[
                0x13, 1, 0x14, 0, 0x19, 0x1f, 0x15, 0, 0x1a, 0x1f, 0x20, 1, 0x21, 1, 0x22, 0, 0x23,
                1, 0x2f, 0x2f, 0xff,
            ],)
        );
    }

    #[test]
    fn refuses_what_is_no_command(rt: HostRuntime) {
        assert!(rt; !grants(&[]));
        // an unknown opcode, a kind that is none, an operand cut short
        assert!(rt; !grants(&[0x12, 0x16, 0x1f, 0x2f, 0xff]));
        assert!(rt; !grants(&[0x10, 3, 0x1f, 0x2f, 0xff]));
        assert!(rt; !grants(&[0x12, 0x1f, 0x20]));
        // no END, bytes after END
        assert!(rt; !grants(&[0x12, 0x1f, 0x2f]));
        assert!(rt; !grants(&[0x12, 0x1f, 0x2f, 0xff, 0xff]));
    }

    #[test]
    fn refuses_formulas(rt: HostRuntime) {
        // no value for DEFINE, two values, too few for AND, OR and NOT
        assert!(rt; !grants(&[0x1f, 0x2f, 0xff]));
        assert!(rt; !grants(&[0x12, 0x12, 0x1f, 0x2f, 0xff]));
        assert!(rt; !grants(&[0x12, 0x18, 0x1f, 0x2f, 0xff]));
        assert!(rt; !grants(&[0x12, 0x19, 0x1f, 0x2f, 0xff]));
        assert!(rt; !grants(&[0x1a, 0x12, 0x1f, 0x2f, 0xff]));
        // a value left where the sending states begin
        assert!(rt; !grants(&[0x12, 0x1f, 0x12, 0x2f, 0xff]));
        // states that are not defined, and a state that is not lower
        assert!(rt; !grants(&[0x13, 1, 0x1f, 0x2f, 0xff]));
        assert!(rt; !grants(&[0x14, 1, 0x1f, 0x2f, 0xff]));
        assert!(rt; !grants(&[0x15, 0, 0x1f, 0x2f, 0xff]));
        // no deciding state
        assert!(rt; !grants(&[0x2f, 0xff]));
    }

    #[test]
    fn refuses_sending_states(rt: HostRuntime) {
        // none at all, one that opens with a move, one that is not done
        assert!(rt; !grants(&[0x12, 0x1f, 0xff]));
        assert!(rt; !grants(&[0x12, 0x1f, 0x24, 0x2f, 0xff]));
        assert!(rt; !grants(&[0x12, 0x1f, 0x20, 0, 0xff]));
        // states that are not defined, and a STAY that is not higher
        assert!(rt; !grants(&[0x12, 0x1f, 0x20, 1, 0x2f, 0xff]));
        assert!(rt; !grants(&[0x12, 0x1f, 0x20, 0, 0x21, 1, 0x2f, 0xff]));
        assert!(rt; !grants(&[0x12, 0x1f, 0x20, 0, 0x22, 1, 0x2f, 0xff]));
        assert!(rt; !grants(&[0x12, 0x1f, 0x20, 0, 0x23, 0, 0x2f, 0xff]));
        assert!(rt; !grants(&[0x12, 0x1f, 0x20, 0, 0x23, 1, 0x2f, 0xff]));
        // a deciding state after a sending state
        assert!(rt; !grants(&[0x12, 0x1f, 0x2f, 0x12, 0x1f, 0xff]));
    }

    fn put(bytes: &mut [u8], at: usize, byte: u8) {
        if let Some(place) = bytes.get_mut(at) {
            *place = byte;
        }
    }

    // so many deciding states that are TRUE, and so many sending states that do nothing
    fn grants_states(bytes: &mut [u8], deciding: u8, sending: u8) -> bool {
        let n = deciding as usize;
        let m = sending as usize;
        for i in 0..n {
            put(bytes, 2 * i, 0x12);
            put(bytes, 2 * i + 1, 0x1f);
        }
        for j in 0..m {
            put(bytes, 2 * n + j, 0x2f);
        }
        put(bytes, 2 * n + m, 0xff);
        grants_front(bytes, 2 * n + m + 1)
    }

    #[test]
    fn counts_states(rt: HostRuntime) {
        let mut bytes = [0; 200];
        assert!(rt; grants_states(&mut bytes, 40, 24));
        assert!(rt; !grants_states(&mut bytes, 41, 24));
        assert!(rt; !grants_states(&mut bytes, 40, 25));
    }

    // so many values of one formula, joined by AND
    fn grants_values(bytes: &mut [u8], values: u8) -> bool {
        let n = values as usize;
        for i in 0..n {
            put(bytes, i, 0x12);
            put(bytes, n + i, 0x18);
        }
        // n values and n - 1 joins, the first of them after a NOT
        put(bytes, n, 0x1a);
        put(bytes, 2 * n, 0x1f);
        put(bytes, 2 * n + 1, 0x2f);
        put(bytes, 2 * n + 2, 0xff);
        grants_front(bytes, 2 * n + 3)
    }

    #[test]
    fn measures_formulas(rt: HostRuntime) {
        let mut bytes = [0; 200];
        assert!(rt; grants_values(&mut bytes, 32));
        assert!(rt; !grants_values(&mut bytes, 33));
    }

    // a program of so many bytes: a TRUE that is turned again and again
    fn grants_length(length: usize) -> bool {
        let mut bytes = [0x1a; 2100];
        let n = length.min(2100).max(4);
        bytes[0] = 0x12;
        bytes[n - 3] = 0x1f;
        bytes[n - 2] = 0x2f;
        bytes[n - 1] = 0xff;
        grants_front(&bytes, n)
    }

    #[test]
    fn measures_programs(rt: HostRuntime) {
        assert!(rt; grants_length(2048));
        assert!(rt; !grants_length(2049));
    }

    #[test]
    fn decides_at_a_node(rt: HostRuntime) {
        // state 0: LABEL 4, or 0 at the next sibling or first child; state 1: not 0
        let bytes = [
            0x11, 0, 4, 0x14, 0, 0x19, 0x13, 0, 0x19, 0x1f, 0x15, 0, 0x1a, 0x1f, 0x2f, 0xff,
        ];
        assert!(rt; grants(&bytes));
        let here = Node {
            label: 4,
            first: 0,
            next: 0,
        };
        let beside = Node {
            label: 3,
            first: 0,
            next: 1,
        };
        let nowhere = Node {
            label: 3,
            first: 2,
            next: 2,
        };
        assert_eq!(rt; decided(&bytes, here), 1);
        assert_eq!(rt; decided(&bytes, beside), 1);
        assert_eq!(rt; decided(&bytes, nowhere), 2);
    }
}
