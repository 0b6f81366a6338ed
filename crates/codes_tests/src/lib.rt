#![tactic(auto)]

// Examples of the codes, and their agreement with one another and with outside vectors.
#[cfg(test)]
mod tests {
    use blocks::Block;
    use codes::{ByteCode, Code, MatrixCode, ShiftCode};
    use generator::judge::judge;
    use generator::record::Generator;
    use refusals::Refusal;
    use std::process::Abort;
    use std::test::Fail;

    // The first powers of 2 in the field of x^8 + x^4 + x^3 + x^2 + 1, as Intel's ISA-L makes them (vectors/powers.c).
    const OUTSIDE: [u16; 48] = [
        0x01, 0x02, 0x04, 0x08, 0x10, 0x20, 0x40, 0x80, 0x1d, 0x3a, 0x74, 0xe8, 0xcd, 0x87, 0x13,
        0x26, 0x4c, 0x98, 0x2d, 0x5a, 0xb4, 0x75, 0xea, 0xc9, 0x8f, 0x03, 0x06, 0x0c, 0x18, 0x30,
        0x60, 0xc0, 0x9d, 0x27, 0x4e, 0x9c, 0x25, 0x4a, 0x94, 0x35, 0x6a, 0xd4, 0xb5, 0x77, 0xee,
        0xc1, 0x9f, 0x23,
    ];

    fn code_of(width: u16, order: u16, rows: &[u16]) -> Result<MatrixCode, Refusal> {
        let mut generator = Generator::fresh();
        judge(width, order, rows, &mut generator)?;
        Ok(MatrixCode::new(generator))
    }

    // A block in which neighbouring bytes differ.
    fn mixed() -> Block {
        let mut block = [0; 512];
        let mut next: u8 = 1;
        for byte in block.iter_mut() {
            *byte = next;
            next = next.wrapping_mul(5).wrapping_add(77);
        }
        block
    }

    // The matrix multiplies a block as the code does.
    fn same_blocks(rt: &impl Abort, matrix: &MatrixCode, code: &impl Code) {
        let mut a = mixed();
        let mut b = mixed();
        matrix.multiply_block(&mut a);
        code.multiply_block(&mut b);
        assert_eq!(rt; a, b);
    }

    #[test]
    fn shift_words(rt: HostRuntime) {
        assert_eq!(rt; ShiftCode.width(), 16);
        assert_eq!(rt; ShiftCode.order(), 17);
        assert_eq!(rt; ShiftCode.multiply(0x8000, 1), 0xffff);
        assert_eq!(rt; ShiftCode.multiply(0x8001, 1), 0xfffd);
        assert_eq!(rt; ShiftCode.multiply(1, 16), 0xffff);
        assert_eq!(rt; ShiftCode.multiply(0x1234, 17), 0x1234);
        assert_eq!(rt; ShiftCode.multiply(0x1234, u32::MAX), 0x1234);
        assert_eq!(rt; ShiftCode.multiply(0x1234, 0), 0x1234);
    }

    #[test]
    fn byte_words(rt: HostRuntime) {
        assert_eq!(rt; ByteCode.width(), 8);
        assert_eq!(rt; ByteCode.order(), 255);
        assert_eq!(rt; ByteCode.multiply(0x80, 1), 0x1d);
        assert_eq!(rt; ByteCode.multiply(0xff00, 9), 0);
        assert_eq!(rt; ByteCode.multiply(0x1280, 256), 0x1d);
        for (exponent, power) in (0..).zip(OUTSIDE) {
            assert_eq!(rt; ByteCode.multiply(1, exponent), power);
        }
    }

    #[test]
    fn shift_as_a_matrix(rt: HostRuntime) -> Result<(), Fail> {
        let rows = [
            0x8000, 0x8001, 0x8002, 0x8004, 0x8008, 0x8010, 0x8020, 0x8040, 0x8080, 0x8100, 0x8200,
            0x8400, 0x8800, 0x9000, 0xa000, 0xc000,
        ];
        let matrix = code_of(16, 17, &rows)?;
        assert_eq!(rt; matrix.multiply(0x8001, 20), ShiftCode.multiply(0x8001, 20));
        same_blocks(&rt, &matrix, &ShiftCode);
        Ok(())
    }

    #[test]
    fn bytes_as_a_matrix(rt: HostRuntime) -> Result<(), Fail> {
        let matrix = code_of(8, 255, &[0x80, 1, 0x82, 0x84, 0x88, 0x10, 0x20, 0x40])?;
        assert_eq!(rt; matrix.multiply(0xabcd, 700), ByteCode.multiply(0xcd, 700));
        same_blocks(&rt, &matrix, &ByteCode);
        Ok(())
    }

    #[test]
    fn words_of_two_and_four_bits(rt: HostRuntime) -> Result<(), Fail> {
        let two = MatrixCode::new(Generator::fresh());
        assert_eq!(rt; two.multiply_byte(0xe4), 0x78);
        let four = code_of(4, 5, &[8, 9, 10, 12])?;
        assert_eq!(rt; four.multiply_byte(0x81), 0xf2);
        let mut block = [0x81; 512];
        four.multiply_block(&mut block);
        assert_eq!(rt; block, [0xf2; 512]);
        Ok(())
    }

    #[test]
    fn blocks_have_no_words_of_three_bits(rt: HostRuntime) -> Result<(), Fail> {
        let three = code_of(3, 7, &[4, 5, 2])?;
        assert_eq!(rt; three.multiply(0xfff4, 1), 3);
        assert_eq!(rt; three.multiply_byte(0x81), 0x81);
        let mut block = mixed();
        three.multiply_block(&mut block);
        assert_eq!(rt; block, mixed());
        Ok(())
    }
}
