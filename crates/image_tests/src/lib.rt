// Images at the edges of the rules, read and refused.

#![tactic(auto)]

#[cfg(test)]
mod tests {
    use image::reading::read_image;
    use rules::line::Line;
    use rules::refusal::Refusal;
    use std::alloc::{AllocError, Global};
    use std::test::Fail;

    // An image to be made: its counts, the address of every activation bit, the length of its first module, and the four bytes of every line.
    // The data and the other lengths are 0.
    #[derive(Clone, Copy)]
    struct Shape {
        data: u16,
        mechanisms: u16,
        modules: u16,
        lines: u16,
        bit: u16,
        length: u16,
        line: [u8; 4],
    }

    const NULL: Shape = Shape {
        data: 17,
        mechanisms: 0,
        modules: 7,
        lines: 0,
        bit: 0,
        length: 0,
        line: [0; 4],
    };

    fn build(heap: Global, shape: Shape) -> Result<Vec<u8>, AllocError> {
        let mut image = Vec::new(heap);
        image.extend_from_slice(&shape.data.to_le_bytes())?;
        for _ in 0..shape.data {
            image.push(0)?;
        }
        image.extend_from_slice(&shape.mechanisms.to_le_bytes())?;
        for _ in 0..shape.mechanisms {
            image.extend_from_slice(&shape.bit.to_le_bytes())?;
        }
        image.extend_from_slice(&shape.modules.to_le_bytes())?;
        for m in 0..shape.modules {
            let length: u16 = if m == 0 { shape.length } else { 0 };
            image.extend_from_slice(&length.to_le_bytes())?;
        }
        image.extend_from_slice(&shape.lines.to_le_bytes())?;
        for _ in 0..shape.lines {
            image.extend_from_slice(&shape.line)?;
        }
        Ok(image)
    }

    // The number and the place of the refusal, where there is one.
    fn verdict(image: &[u8]) -> Option<(u8, usize)> {
        let refusal = Refusal::from(read_image(image).err()?);
        Some((u8::from(refusal.rule), refusal.place))
    }

    #[test]
    fn beginnings(rt: HostRuntime) -> Result<(), Fail> {
        let mut image = build(rt.alloc(), NULL)?;
        image.push(0)?;
        let table = [
            (0, Some((1, 0))),
            (1, Some((1, 0))),
            (2, Some((1, 2))),
            (37, Some((1, 37))),
            (38, Some((1, 37))),
            (39, None),
            (40, Some((4, 39))),
        ];
        for (n, expected) in table {
            assert!(rt; n <= image.len());
            assert_eq!(rt; verdict(&image[0..n]), expected);
        }
        Ok(())
    }

    #[test]
    fn edges(rt: HostRuntime) -> Result<(), Fail> {
        let table = [
            (Shape { data: 16, ..NULL }, Some((2, 0))),
            (Shape { data: 1024, ..NULL }, None),
            (Shape { data: 1025, ..NULL }, Some((2, 0))),
            (
                Shape {
                    mechanisms: 32,
                    ..NULL
                },
                None,
            ),
            (
                Shape {
                    mechanisms: 33,
                    ..NULL
                },
                Some((2, 19)),
            ),
            (Shape { modules: 6, ..NULL }, Some((2, 21))),
            (Shape { modules: 8, ..NULL }, Some((2, 21))),
            (
                Shape {
                    lines: 2048,
                    length: 2048,
                    ..NULL
                },
                None,
            ),
            (
                Shape {
                    lines: 2049,
                    length: 2049,
                    ..NULL
                },
                Some((2, 37)),
            ),
            (
                Shape {
                    mechanisms: 2,
                    bit: 135,
                    ..NULL
                },
                None,
            ),
            (
                Shape {
                    mechanisms: 2,
                    bit: 136,
                    ..NULL
                },
                Some((3, 21)),
            ),
            (Shape { length: 1, ..NULL }, Some((5, 37))),
            (Shape { lines: 1, ..NULL }, Some((5, 37))),
        ];
        for (shape, expected) in table {
            let image = build(rt.alloc(), shape)?;
            assert_eq!(rt; verdict(&image), expected);
        }
        Ok(())
    }

    #[test]
    fn holds(rt: HostRuntime) -> Result<(), Fail> {
        let shape = Shape {
            mechanisms: 1,
            lines: 1,
            bit: 135,
            length: 1,
            line: [1, 2, 0x34, 0x12],
            ..NULL
        };
        let image = build(rt.alloc(), shape)?;
        let Ok(parts) = read_image(&image) else {
            return Err(Fail::new("refused"));
        };
        assert_eq!(rt; parts.lines.part().offset, 41);
        let program = parts.program(rt.alloc())?;
        assert_eq!(rt; program.initial.len(), 17);
        assert!(rt; program.activation.len() == 1);
        assert_eq!(rt; program.activation[0], 135);
        assert!(rt; program.lines.len() == 1);
        assert_eq!(rt;
            program.lines[0],
            Line {
                code: 1,
                mode: 2,
                operand: 0x1234,
            }
        );
        Ok(())
    }
}
