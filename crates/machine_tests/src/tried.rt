// Lines tried on known data: bit 0 is 1 and bit 1 is 0, bit 64 is 0 and bit 65 is 1, the number at 16 has the bytes 10, 1, 0, 128, and one cell
// is stacked, a 1. The text flag is set.
#[cfg(test)]
mod tests {
    use crate::ruled::has_rule;
    use lines::registers::Registers;
    use lines::stack::Stack;
    use lines::step::step;
    use lines::turn::Turn;
    use rules::line::Line;
    use std::process::Abort;
    use std::test::Fail;

    // The turns by number.
    const FOLLOWS: (u8, u16) = (0, 0);

    const STOPS: (u8, u16) = (2, 0);

    const WAITS: (u8, u16) = (3, 0);

    const RESUMES: (u8, u16) = (4, 0);

    fn turn_number(turn: Turn) -> (u8, u16) {
        match turn {
            Turn::Follows => (0, 0),
            Turn::Goes(target) => (1, target),
            Turn::Stops => (2, 0),
            Turn::Waits => (3, 0),
            Turn::Resumes => (4, 0),
            Turn::Enters(mechanism) => (5, mechanism),
            Turn::Skips(mechanism) => (6, mechanism),
            Turn::Resets(mechanism) => (7, mechanism),
        }
    }

    #[derive(Drop)]
    struct Left {
        turn: (u8, u16),
        rlo: bool,
        dr: u32,
        depth: usize,
        bytes: [u8; 20],
    }

    // What the line of a code, a mode and an operand leaves, at an RLO and a DR, if a rule exists for it.
    fn tried((code, mode, operand): (u8, u8, u16), (rlo, dr): (bool, u32)) -> Option<Left> {
        let line = Line {
            code,
            mode,
            operand,
        };
        let activation = [64u16, 65];
        let mut bytes = [
            1, 0, 0, 0, 0, 0, 0, 0, 2, 0, 0, 0, 0, 0, 0, 0, 10, 1, 0, 128u8,
        ];
        let mut stack = Stack::new();
        stack.push(true);
        let mut registers = Registers { rlo, dr, stack };
        if !has_rule(line, true, &activation, &registers, &bytes) {
            return None;
        }
        let turn = step(line, true, &activation, &mut registers, &mut bytes);
        Some(Left {
            turn: turn_number(turn),
            rlo: registers.rlo,
            dr: registers.dr,
            depth: registers.stack.len(),
            bytes,
        })
    }

    // The turn, the RLO and the number of cells that a line leaves at an RLO.
    fn leads(
        rt: &impl Abort,
        line: (u8, u8, u16),
        rlo: bool,
        turn: (u8, u16),
        rlo_after: bool,
        depth: usize,
    ) -> Result<(), Fail> {
        let Some(left) = tried(line, (rlo, 7)) else {
            return Err(Fail::new("no rule"));
        };
        let (kind, operand) = left.turn;
        assert_eq!(rt; kind, turn.0);
        assert_eq!(rt; operand, turn.1);
        assert_eq!(rt; left.rlo, rlo_after);
        assert_eq!(rt; left.depth, depth);
        assert_eq!(rt; left.dr, 7);
        Ok(())
    }

    // The RLO and the DR that a line leaves at a DR and an RLO of 1.
    fn counts(
        rt: &impl Abort,
        line: (u8, u8, u16),
        dr: u32,
        rlo_after: bool,
        dr_after: u32,
    ) -> Result<(), Fail> {
        let Some(left) = tried(line, (true, dr)) else {
            return Err(Fail::new("no rule"));
        };
        assert_eq!(rt; left.rlo, rlo_after);
        assert_eq!(rt; left.dr, dr_after);
        assert_eq!(rt; left.depth, 1);
        Ok(())
    }

    // The bytes 8 and 16 to 19 that a line leaves at an RLO.
    fn writes(
        rt: &impl Abort,
        line: (u8, u8, u16),
        rlo: bool,
        output: u8,
        number: [u8; 4],
    ) -> Result<(), Fail> {
        let Some(left) = tried(line, (rlo, 0x0102_0304)) else {
            return Err(Fail::new("no rule"));
        };
        assert_eq!(rt; left.bytes[8], output);
        assert_eq!(rt; left.bytes[16], number[0]);
        assert_eq!(rt; left.bytes[17], number[1]);
        assert_eq!(rt; left.bytes[18], number[2]);
        assert_eq!(rt; left.bytes[19], number[3]);
        Ok(())
    }

    #[test]
    fn bits(rt: HostRuntime) -> Result<(), Fail> {
        leads(&rt, (1, 0, 0), false, FOLLOWS, true, 2)?;
        leads(&rt, (1, 1, 0), true, FOLLOWS, false, 2)?;
        leads(&rt, (2, 0, 1), true, FOLLOWS, false, 1)?;
        leads(&rt, (2, 1, 1), true, FOLLOWS, true, 1)?;
        leads(&rt, (2, 2, 0), true, FOLLOWS, true, 0)?;
        leads(&rt, (3, 0, 0), false, FOLLOWS, true, 1)?;
        leads(&rt, (3, 1, 0), false, FOLLOWS, false, 1)?;
        leads(&rt, (3, 2, 0), false, FOLLOWS, true, 0)?;
        leads(&rt, (4, 0, 0), true, FOLLOWS, false, 1)?;
        leads(&rt, (4, 1, 0), true, FOLLOWS, true, 1)?;
        leads(&rt, (4, 2, 0), true, FOLLOWS, false, 0)?;
        leads(&rt, (5, 0, 0), true, FOLLOWS, false, 1)
    }

    #[test]
    fn turns(rt: HostRuntime) -> Result<(), Fail> {
        leads(&rt, (9, 0, 7), false, (1, 7), false, 1)?;
        leads(&rt, (9, 0, 7), true, FOLLOWS, true, 1)?;
        leads(&rt, (10, 0, 7), false, FOLLOWS, false, 1)?;
        leads(&rt, (10, 0, 7), true, (1, 7), true, 1)?;
        leads(&rt, (11, 0, 0), true, STOPS, true, 1)?;
        leads(&rt, (12, 0, 0), false, WAITS, false, 1)?;
        leads(&rt, (12, 0, 0), true, RESUMES, true, 1)?;
        leads(&rt, (13, 0, 0), false, RESUMES, false, 1)?;
        leads(&rt, (13, 0, 0), true, WAITS, true, 1)?;
        leads(&rt, (22, 0, 0), true, (6, 0), true, 1)?;
        leads(&rt, (22, 0, 1), true, (5, 1), true, 1)?;
        leads(&rt, (23, 0, 1), true, FOLLOWS, true, 1)?;
        leads(&rt, (24, 0, 1), true, (7, 1), true, 1)
    }

    #[test]
    fn numbers(rt: HostRuntime) -> Result<(), Fail> {
        counts(&rt, (16, 1, 16), 0, true, 10)?;
        counts(&rt, (16, 2, 16), 0, true, 266)?;
        counts(&rt, (16, 4, 16), 0, true, 0x8000_010a)?;
        counts(&rt, (19, 1, 16), 250, true, 4)?;
        counts(&rt, (19, 2, 16), 0xffff, true, 265)?;
        counts(&rt, (19, 4, 16), 0x8000_0000, true, 266)?;
        counts(&rt, (20, 1, 0), 128, true, 128)?;
        counts(&rt, (20, 2, 0), 0x1_ffff, true, 1)?;
        counts(&rt, (20, 4, 0), 0xffff_fffe, true, 2)?;
        counts(&rt, (21, 1, 1), 255, false, 255)?;
        counts(&rt, (21, 2, 16), 266, true, 266)?;
        counts(&rt, (21, 4, 16), 0x8000_0000, false, 0x8000_0000)
    }

    #[test]
    fn data(rt: HostRuntime) -> Result<(), Fail> {
        writes(&rt, (6, 0, 64), true, 3, [10, 1, 0, 128])?;
        writes(&rt, (7, 0, 65), true, 0, [10, 1, 0, 128])?;
        writes(&rt, (7, 1, 64), false, 3, [10, 1, 0, 128])?;
        writes(&rt, (8, 0, 65), true, 0, [10, 1, 0, 128])?;
        writes(&rt, (8, 1, 64), false, 2, [10, 1, 0, 128])?;
        writes(&rt, (17, 1, 16), true, 2, [4, 1, 0, 128])?;
        writes(&rt, (17, 2, 16), true, 2, [4, 3, 0, 128])?;
        writes(&rt, (17, 4, 16), true, 2, [4, 3, 2, 1])?;
        writes(&rt, (23, 0, 1), true, 0, [10, 1, 0, 128])?;
        writes(&rt, (24, 0, 1), true, 0, [10, 1, 0, 128])
    }
}
