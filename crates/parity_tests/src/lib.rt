#![tactic(auto)]

// Examples of block arithmetic and encoding, and P and Q of another RAID-6 program.
#[cfg(test)]
mod vectors;

#[cfg(test)]
mod tests {
    use crate::vectors::*;
    use codes::{ByteCode, Code, MatrixCode, ShiftCode};
    use generator::record::Generator;
    use parity::{Block, WordMap, add, encode};
    use refusals::Refusal;
    use std::process::Abort;
    use std::test::Fail;
    use test_bytes::fill;

    // P and Q of k columns of the data that vectors/README.md describes are those of the other program.
    fn agrees(rt: &impl Abort, k: u8, p_there: &Block, q_there: &Block) -> Result<(), Fail> {
        if k > 10 {
            return Err(Fail::new("no vector has so many columns"));
        }
        let size = usize::from(k) * 512;
        let mut data = [0; 5120];
        fill(u32::from(k), &mut data);
        let mut p = [0; 512];
        let mut q = [0; 512];
        encode(&ByteCode, k, &data[..size], &mut p, &mut q)?;
        assert!(rt; p == *p_there, "P of K = {k}");
        assert!(rt; q == *q_there, "Q of K = {k}");
        Ok(())
    }

    #[test]
    fn outside_vectors(rt: HostRuntime) -> Result<(), Fail> {
        agrees(&rt, 2, P_2, Q_2)?;
        agrees(&rt, 3, P_3, Q_3)?;
        agrees(&rt, 5, P_5, Q_5)?;
        agrees(&rt, 10, P_10, Q_10)
    }

    // Words of 2 bits, first and last of the block: 1, 2 and 0 give P 3 and Q 2.
    #[test]
    fn width_2(rt: HostRuntime) -> Result<(), Fail> {
        let code = MatrixCode::new(Generator::fresh());
        let mut data = [0; 1536];
        data[0] = 1;
        data[511] = 1 << 6;
        data[512] = 2;
        data[1023] = 2 << 6;
        let mut p = [0xff; 512];
        let mut q = [0xff; 512];
        encode(&code, 3, &data, &mut p, &mut q)?;
        let mut p_there = [0; 512];
        let mut q_there = [0; 512];
        p_there[0] = 3;
        p_there[511] = 3 << 6;
        q_there[0] = 2;
        q_there[511] = 2 << 6;
        assert!(rt; p == p_there);
        assert!(rt; q == q_there);
        Ok(())
    }

    // Words of 16 bits: 0x1234 and 0x8001 give P 0x9235 and Q 0xedc9.
    #[test]
    fn shift_words(rt: HostRuntime) -> Result<(), Fail> {
        let mut data = [0; 1024];
        data[0] = 0x34;
        data[1] = 0x12;
        data[510] = 0x34;
        data[511] = 0x12;
        data[512] = 0x01;
        data[513] = 0x80;
        data[1022] = 0x01;
        data[1023] = 0x80;
        let mut p = [0; 512];
        let mut q = [0; 512];
        encode(&ShiftCode, 2, &data, &mut p, &mut q)?;
        let mut p_there = [0; 512];
        let mut q_there = [0; 512];
        p_there[0] = 0x35;
        p_there[1] = 0x92;
        p_there[510] = 0x35;
        p_there[511] = 0x92;
        q_there[0] = 0xc9;
        q_there[1] = 0xed;
        q_there[510] = 0xc9;
        q_there[511] = 0xed;
        assert!(rt; p == p_there);
        assert!(rt; q == q_there);
        Ok(())
    }

    // A call with so many columns and buffers of so many bytes.
    #[derive(Clone, Copy)]
    struct Call {
        columns: u8,
        data_size: usize,
        p_size: usize,
        q_size: usize,
    }

    impl Call {
        // The buffers have the sizes that so many columns take.
        fn fitting(columns: u8) -> Call {
            Call {
                columns,
                data_size: usize::from(columns) * 512,
                p_size: 512,
                q_size: 512,
            }
        }

        // What it answers. Refused, it leaves P and Q alone.
        fn answer<C: Code>(self, rt: &impl Abort, code: &C) -> Result<Result<(), Refusal>, Fail> {
            let Call {
                columns,
                data_size,
                p_size,
                q_size,
            } = self;
            let data = [0; 16384];
            let mut p = [0xa5; 513];
            let mut q = [0xa5; 513];
            if data_size > 16384 || p_size > 513 || q_size > 513 {
                return Err(Fail::new("no buffer is as large"));
            }
            let answer = encode(
                code,
                columns,
                &data[..data_size],
                &mut p[..p_size],
                &mut q[..q_size],
            );
            if answer.is_err() {
                assert!(rt; p == [0xa5; 513], "P changed");
                assert!(rt; q == [0xa5; 513], "Q changed");
            }
            Ok(answer)
        }
    }

    #[test]
    fn columns(rt: HostRuntime) -> Result<(), Fail> {
        let matrix = MatrixCode::new(Generator::fresh());
        let unfit = Err(Refusal::DoesNotFit);
        assert_eq!(rt; Refusal::DoesNotFit.number(), 12);
        // no data, and more than 32 drives, whatever the buffers are
        assert_eq!(rt; Call::fitting(0).answer(&rt, &ByteCode)?, unfit);
        let call = Call {
            data_size: 1,
            p_size: 1,
            ..Call::fitting(0)
        };
        assert_eq!(rt; call.answer(&rt, &ByteCode)?, unfit);
        assert_eq!(rt; Call::fitting(31).answer(&rt, &ByteCode)?, unfit);
        let call = Call {
            data_size: 512,
            ..Call::fitting(255)
        };
        assert_eq!(rt; call.answer(&rt, &ByteCode)?, unfit);
        // more columns than the order
        assert_eq!(rt; Call::fitting(4).answer(&rt, &matrix)?, unfit);
        assert_eq!(rt; Call::fitting(18).answer(&rt, &ShiftCode)?, unfit);
        // the most and the fewest
        assert_eq!(rt; Call::fitting(3).answer(&rt, &matrix)?, Ok(()));
        assert_eq!(rt; Call::fitting(17).answer(&rt, &ShiftCode)?, Ok(()));
        assert_eq!(rt; Call::fitting(30).answer(&rt, &ByteCode)?, Ok(()));
        assert_eq!(rt; Call::fitting(1).answer(&rt, &ByteCode)?, Ok(()));
        Ok(())
    }

    #[test]
    fn buffers(rt: HostRuntime) -> Result<(), Fail> {
        assert_eq!(rt; Refusal::BufferSize.number(), 9);
        for (data_size, p_size, q_size) in [
            (1023, 512, 512),
            (1025, 512, 512),
            (1024, 511, 512),
            (1024, 513, 512),
            (1024, 512, 511),
            (1024, 512, 513),
        ] {
            let call = Call {
                columns: 2,
                data_size,
                p_size,
                q_size,
            };
            assert_eq!(rt;
                call.answer(&rt, &ByteCode)?,
                Err(Refusal::BufferSize),
                "{data_size} bytes of data, {p_size} of P, {q_size} of Q"
            );
        }
        Ok(())
    }

    // A power is as many multiplications, and what undoes 1 + g^z gives the block back.
    fn maps<C: Code>(rt: &impl Abort, code: &C, z: u8) {
        let mut block = [0; 512];
        fill(u32::from(z), &mut block);
        let mut by_steps = block;
        for _ in 0..z {
            code.multiply_block(&mut by_steps);
        }
        let mut powered = block;
        WordMap::power(code, u32::from(z)).apply(&mut powered);
        assert!(rt; powered == by_steps, "power");
        add(&mut powered, &block);
        WordMap::undo(code, z).apply(&mut powered);
        assert!(rt; powered == block, "undo");
    }

    #[test]
    fn word_maps(rt: HostRuntime) {
        maps(&rt, &ByteCode, 1);
        maps(&rt, &ByteCode, 29);
        maps(&rt, &ShiftCode, 1);
        maps(&rt, &ShiftCode, 16);
        let matrix = MatrixCode::new(Generator::fresh());
        maps(&rt, &matrix, 1);
        maps(&rt, &matrix, 2);
    }
}
