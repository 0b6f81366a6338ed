#![tactic(auto)]

// Worked figures of the judge and of matrices, run. Expected values come from the worked figures and from the field of order 256, not from this program.
#[cfg(test)]
mod tests {
    use generator::judge::judge;
    use generator::matrix::{image, power, product};
    use generator::record::Generator;
    use refusals::Refusal;

    // A verdict, and the order in the record after it. The record before it is the fresh one, of order 3.
    type Judged = (Result<(), Refusal>, u16);

    fn judged(width: u16, order: u16, rows: &[u16]) -> Judged {
        let mut generator = Generator::fresh();
        let verdict = judge(width, order, rows, &mut generator);
        (verdict, generator.order())
    }

    // A refusal leaves the record as it was.
    fn refused(refusal: Refusal) -> Judged {
        (Err(refusal), 3)
    }

    // The record of an accepted matrix takes the place of the fresh one.
    fn accepted_at(order: u16) -> Judged {
        (Ok(()), order)
    }

    #[test]
    fn sizes(rt: HostRuntime) {
        assert_eq!(rt; judged(2, 1, &[2, 3]), refused(Refusal::Order));
        assert_eq!(rt; judged(2, 256, &[2, 3]), refused(Refusal::Order));
        assert_eq!(rt; judged(17, 3, &[2, 3]), refused(Refusal::Width));
        assert_eq!(rt; judged(0, 3, &[]), refused(Refusal::Width));
        assert_eq!(rt; judged(0, 0, &[]), refused(Refusal::Width));
    }

    #[test]
    fn shapes(rt: HostRuntime) {
        assert_eq!(rt; judged(2, 3, &[2, 7]), refused(Refusal::Rows));
        assert_eq!(rt; judged(2, 3, &[2]), refused(Refusal::Rows));
        assert_eq!(rt; judged(2, 3, &[2, 3, 0]), refused(Refusal::Rows));
        assert_eq!(rt; judged(2, 5, &[2, 3, 0]), refused(Refusal::Rows));
    }

    #[test]
    fn powers(rt: HostRuntime) {
        assert_eq!(rt; judged(2, 5, &[2, 3]), refused(Refusal::NotCyclic));
        assert_eq!(rt;
            judged(2, 9, &[2, 3]),
            refused(Refusal::FixedWord { divisor: 3 })
        );
        assert_eq!(rt;
            judged(2, 6, &[2, 3]),
            refused(Refusal::FixedWord { divisor: 3 })
        );
        assert_eq!(rt;
            judged(2, 3, &[1, 2]),
            refused(Refusal::FixedWord { divisor: 1 })
        );
    }

    // The doubling of bytes modulo x^8 + x^4 + x^3 + x^2 + 1, whose powers run through all 255 nonzero bytes.
    const DOUBLING: [u16; 8] = [0x80, 0x01, 0x82, 0x84, 0x88, 0x10, 0x20, 0x40];

    #[test]
    fn accepted(rt: HostRuntime) {
        assert_eq!(rt; judged(2, 3, &[2, 3]), accepted_at(3));
        assert_eq!(rt; judged(4, 5, &[8, 9, 10, 12]), accepted_at(5));
        assert_eq!(rt; judged(8, 255, &DOUBLING), accepted_at(255));
        assert_eq!(rt; judged(8, 85, &DOUBLING), refused(Refusal::NotCyclic));
    }

    // 2^8 is 0x1d in that field, and 2^7 times 2^7 is 2^14, which is 0x13.
    #[test]
    fn doubling(rt: HostRuntime) {
        let mut matrix = [0; 16];
        matrix[..8].copy_from_slice(&DOUBLING);
        assert_eq!(rt; image(matrix, 0x80), 0x1d);
        let seventh = power(matrix, 7);
        assert_eq!(rt; image(seventh, 1), 0x80);
        assert_eq!(rt; image(product(seventh, seventh), 1), 0x13);
    }
}
