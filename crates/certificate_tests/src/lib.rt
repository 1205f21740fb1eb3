// Verdicts and certificates of small programs, from their images.

#![tactic(auto)]

#[cfg(test)]
mod tests {
    use certificate::issue::certificate;
    use rules::line::Line;
    use rules::refusal::Layer;
    use std::alloc::{AllocError, Global};
    use std::test::Fail;
    use verdict::place::accept;

    // The gate program: one mechanism that opens a gate, waits, and shuts it.
    const GATE: [u8; 86] = [
        18, 0, 0, 0, 0, 0, 0, 0, 0, 0, 0, 0, 0, 0, 0, 0, 0, 0, 0, 0, 1, 0, 136, 0, 7, 0, 0, 0, 0,
        0, 0, 0, 9, 0, 1, 0, 1, 0, 0, 0, 11, 0, 1, 0, 0, 0, 8, 1, 136, 0, 22, 0, 0, 0, 7, 1, 64, 0,
        11, 0, 0, 0, 1, 0, 1, 0, 12, 0, 0, 0, 7, 0, 64, 0, 23, 0, 0, 0, 24, 0, 0, 0, 24, 0, 0, 0,
    ];

    // The gate program with an empty INIT.
    const WITHOUT_INIT: [u8; 82] = [
        18, 0, 0, 0, 0, 0, 0, 0, 0, 0, 0, 0, 0, 0, 0, 0, 0, 0, 0, 0, 1, 0, 136, 0, 7, 0, 0, 0, 0,
        0, 0, 0, 9, 0, 0, 0, 1, 0, 0, 0, 10, 0, 1, 0, 0, 0, 8, 1, 136, 0, 22, 0, 0, 0, 7, 1, 64, 0,
        11, 0, 0, 0, 1, 0, 1, 0, 12, 0, 0, 0, 7, 0, 64, 0, 23, 0, 0, 0, 24, 0, 0, 0,
    ];

    // The gate program with an empty CLEAR.
    const WITHOUT_CLEAR: [u8; 82] = [
        18, 0, 0, 0, 0, 0, 0, 0, 0, 0, 0, 0, 0, 0, 0, 0, 0, 0, 0, 0, 1, 0, 136, 0, 7, 0, 0, 0, 0,
        0, 0, 0, 9, 0, 1, 0, 0, 0, 0, 0, 10, 0, 1, 0, 0, 0, 8, 1, 136, 0, 22, 0, 0, 0, 7, 1, 64, 0,
        11, 0, 0, 0, 1, 0, 1, 0, 12, 0, 0, 0, 7, 0, 64, 0, 23, 0, 0, 0, 24, 0, 0, 0,
    ];

    const LDR: Line = Line {
        code: 1,
        mode: 0,
        operand: 0,
    };

    const LA_CELL: Line = Line {
        code: 2,
        mode: 2,
        operand: 0,
    };

    const CA: Line = Line {
        code: 5,
        mode: 0,
        operand: 0,
    };

    const WR: Line = Line {
        code: 6,
        mode: 0,
        operand: 64,
    };

    const JL1_TO_4: Line = Line {
        code: 10,
        mode: 0,
        operand: 4,
    };

    // A number as two bytes, the low one first.
    fn push_pair(bytes: &mut Vec<u8>, n: u16) -> Result<(), AllocError> {
        let [lo, hi] = n.to_le_bytes();
        bytes.push(lo)?;
        bytes.push(hi)?;
        Ok(())
    }

    // The image of a program with 17 zero data bytes and these lines in INPUT.
    fn in_input(heap: Global, lines: &[Line]) -> Result<Vec<u8>, AllocError> {
        let count = u16::try_from(lines.len()).unwrap_or(0);
        let mut bytes = Vec::new(heap);
        push_pair(&mut bytes, 17)?;
        for _ in 0..17u8 {
            bytes.push(0)?;
        }
        push_pair(&mut bytes, 0)?;
        push_pair(&mut bytes, 7)?;
        push_pair(&mut bytes, count)?;
        for _ in 0..6u8 {
            push_pair(&mut bytes, 0)?;
        }
        push_pair(&mut bytes, count)?;
        for line in lines {
            bytes.push(line.code)?;
            bytes.push(line.mode)?;
            push_pair(&mut bytes, line.operand)?;
        }
        Ok(bytes)
    }

    // 0 with LINES, STACK and SCAN of an accepted program; else the refusal's number, its layer (1 image, 2 text) and its place.
    fn verdict_on(heap: Global, image: &[u8]) -> Result<[usize; 4], AllocError> {
        match accept(heap, image) {
            Ok(program) => {
                let fields = certificate(&program, heap)?;
                Ok([0, fields.lines, fields.stack as usize, fields.scan as usize])
            }
            Err(fault) => {
                let Some(refusal) = fault.refusal() else {
                    return Err(AllocError);
                };
                let layer = match refusal.layer {
                    Layer::Image => 1,
                    Layer::Text => 2,
                };
                Ok([usize::from(u8::from(refusal.rule)), layer, refusal.place, 0])
            }
        }
    }

    #[test]
    fn gates(rt: HostRuntime) -> Result<(), Fail> {
        let heap = rt.alloc();
        assert!(rt; verdict_on(heap, &GATE)? == [0, 11, 0, 7]);
        assert!(rt; verdict_on(heap, &WITHOUT_INIT)? == [14, 2, 4, 0]);
        assert!(rt; verdict_on(heap, &WITHOUT_CLEAR)? == [14, 2, 5, 0]);
        assert!(rt; verdict_on(heap, &GATE[0..85])? == [1, 1, 42, 0]);
        Ok(())
    }

    #[test]
    fn depths(rt: HostRuntime) -> Result<(), Fail> {
        let heap = rt.alloc();
        let nine = [
            LDR, LDR, LDR, LDR, LDR, LDR, LDR, LDR, LDR, LA_CELL, LA_CELL, LA_CELL, LA_CELL,
            LA_CELL, LA_CELL, LA_CELL, LA_CELL, WR,
        ];
        let image = in_input(heap, &nine)?;
        assert!(rt; verdict_on(heap, image.as_slice())? == [0, 18, 8, 18]);
        let ten = in_input(heap, &[LDR; 10])?;
        assert!(rt; verdict_on(heap, ten.as_slice())? == [13, 2, 9, 0]);
        let left = in_input(heap, &[LDR, LDR, WR])?;
        assert!(rt; verdict_on(heap, left.as_slice())? == [13, 2, 3, 0]);
        let meeting = in_input(heap, &[LDR, JL1_TO_4, LDR, LDR, LA_CELL])?;
        assert!(rt; verdict_on(heap, meeting.as_slice())? == [13, 2, 4, 0]);
        let jump = in_input(heap, &[LDR, JL1_TO_4, LDR, WR, LDR, WR])?;
        assert!(rt; verdict_on(heap, jump.as_slice())? == [0, 6, 0, 6]);
        Ok(())
    }

    #[test]
    fn long(rt: HostRuntime) -> Result<(), Fail> {
        let heap = rt.alloc();
        let mut lines = Vec::new(heap);
        for _ in 0..2048u16 {
            lines.push(CA)?;
        }
        let full = in_input(heap, lines.as_slice())?;
        assert!(rt; verdict_on(heap, full.as_slice())? == [0, 2048, 0, 2048]);
        lines.push(CA)?;
        let over = in_input(heap, lines.as_slice())?;
        assert!(rt; verdict_on(heap, over.as_slice())? == [2, 1, 37, 0]);
        Ok(())
    }
}
