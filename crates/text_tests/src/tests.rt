// Each clause of the rules of the text that need no route, with the line where it is broken, and the edges beside it.
use crate::building::program;
use rules::line::Line;
use rules::unit::UnitId;
use std::alloc::Global;
use std::process::Abort;
use std::test::Fail;
use text::fault::{CheckFault, TextFault};
use text::forming::form;
use text::span::Span;

// Lines by code, mode and operand.
macro_rules! lines {
    ($(($code:expr, $mode:expr, $operand:expr)),*) => {
        &[$(Line { code: $code, mode: $mode, operand: $operand }),*]
    };
}

// Forms a program and compares the fault, or none where it is formed.
fn expect(
    rt: &impl Abort,
    heap: Global,
    activation: &[u16],
    lengths: &[u16],
    lines: &[Line],
    expected: Option<TextFault>,
) -> Result<(), Fail> {
    let program = program(heap, activation, lengths, lines)?.ok_or("no program")?;
    match form(heap, program) {
        Ok(_) => {
            assert_eq!(rt; None, expected);
            Ok(())
        },
        Err(CheckFault::Text(fault)) => {
            assert_eq!(rt; Some(fault), expected);
            Ok(())
        },
        Err(CheckFault::Memory) => Err(Fail::new("no memory")),
    }
}

// The same of a program without mechanisms, all of whose lines stand in INPUT.
fn expect_input(
    rt: &impl Abort,
    heap: Global,
    lines: &[Line],
    expected: Option<TextFault>,
) -> Result<(), Fail> {
    let Ok(count) = u16::try_from(lines.len()) else {
        return Err(Fail::new("too many lines"));
    };
    expect(rt, heap, &[], &[count, 0, 0, 0, 0, 0, 0], lines, expected)
}

// The same of a program with mechanisms, all of whose lines stand in MAIN.
fn expect_main(
    rt: &impl Abort,
    heap: Global,
    activation: &[u16],
    lines: &[Line],
    expected: Option<TextFault>,
) -> Result<(), Fail> {
    let Ok(count) = u16::try_from(lines.len()) else {
        return Err(Fail::new("too many lines"));
    };
    expect(
        rt,
        heap,
        activation,
        &[0, 0, 0, count, 0, 0, 0],
        lines,
        expected,
    )
}

#[test]
fn unknown_lines(rt: HostRuntime) -> Result<(), Fail> {
    let heap = rt.alloc();
    expect_input(
        &rt,
        heap,
        lines![(0, 0, 0)],
        Some(TextFault::UnknownLine(0)),
    )?;
    expect_input(
        &rt,
        heap,
        lines![(1, 0, 0), (14, 0, 0)],
        Some(TextFault::UnknownLine(1)),
    )?;
    expect_input(
        &rt,
        heap,
        lines![(18, 1, 0)],
        Some(TextFault::UnknownLine(0)),
    )?;
    expect_input(
        &rt,
        heap,
        lines![(25, 0, 0)],
        Some(TextFault::UnknownLine(0)),
    )?;
    expect_input(
        &rt,
        heap,
        lines![(1, 2, 0)],
        Some(TextFault::UnknownLine(0)),
    )?;
    expect_input(
        &rt,
        heap,
        lines![(4, 3, 0)],
        Some(TextFault::UnknownLine(0)),
    )?;
    expect_input(
        &rt,
        heap,
        lines![(5, 1, 0)],
        Some(TextFault::UnknownLine(0)),
    )?;
    expect_input(
        &rt,
        heap,
        lines![(16, 0, 0)],
        Some(TextFault::UnknownLine(0)),
    )?;
    expect_input(
        &rt,
        heap,
        lines![(21, 3, 0)],
        Some(TextFault::UnknownLine(0)),
    )?;
    // the lower rule comes first, though its line comes later
    expect_input(
        &rt,
        heap,
        lines![(1, 0, 144), (0, 0, 0)],
        Some(TextFault::UnknownLine(1)),
    )
}

#[test]
fn bad_operands(rt: HostRuntime) -> Result<(), Fail> {
    let heap = rt.alloc();
    expect_input(&rt, heap, lines![(1, 1, 143)], None)?;
    expect_input(
        &rt,
        heap,
        lines![(1, 1, 144)],
        Some(TextFault::BadOperand(0)),
    )?;
    expect_input(
        &rt,
        heap,
        lines![(3, 2, 0), (3, 2, 1)],
        Some(TextFault::BadOperand(1)),
    )?;
    expect_input(&rt, heap, lines![(5, 0, 1)], Some(TextFault::BadOperand(0)))?;
    expect_input(
        &rt,
        heap,
        lines![(16, 4, 14), (17, 2, 16), (19, 1, 17)],
        None,
    )?;
    expect_input(
        &rt,
        heap,
        lines![(16, 4, 15)],
        Some(TextFault::BadOperand(0)),
    )?;
    expect_input(
        &rt,
        heap,
        lines![(21, 1, 18)],
        Some(TextFault::BadOperand(0)),
    )?;
    expect_input(
        &rt,
        heap,
        lines![(20, 2, 1)],
        Some(TextFault::BadOperand(0)),
    )?;
    expect_input(
        &rt,
        heap,
        lines![(24, 0, 0)],
        Some(TextFault::BadOperand(0)),
    )?;
    // a jump's operand is no matter of this rule
    expect_input(&rt, heap, lines![(9, 0, 9)], Some(TextFault::BadJump(0)))
}

#[test]
fn bad_mechanisms(rt: HostRuntime) -> Result<(), Fail> {
    let heap = rt.alloc();
    expect_main(&rt, heap, &[136], lines![(22, 0, 0), (23, 0, 0)], None)?;
    expect(
        &rt,
        heap,
        &[136],
        &[1, 0, 0, 0, 0, 0, 0],
        lines![(22, 0, 0)],
        Some(TextFault::BadMechanism(0)),
    )?;
    expect(
        &rt,
        heap,
        &[136],
        &[0, 0, 0, 0, 2, 0, 0],
        lines![(5, 0, 0), (22, 0, 0)],
        Some(TextFault::BadMechanism(1)),
    )?;
    expect(
        &rt,
        heap,
        &[136],
        &[0, 0, 0, 2, 1, 0, 0],
        lines![(22, 0, 0), (23, 0, 0), (23, 0, 0)],
        Some(TextFault::BadMechanism(2)),
    )?;
    expect_main(
        &rt,
        heap,
        &[136, 137],
        lines![(22, 0, 0), (22, 0, 1), (23, 0, 1), (23, 0, 0)],
        Some(TextFault::BadMechanism(1)),
    )?;
    expect_main(
        &rt,
        heap,
        &[136],
        lines![(22, 0, 0), (23, 0, 0), (22, 0, 0), (23, 0, 0)],
        Some(TextFault::BadMechanism(2)),
    )?;
    expect_main(
        &rt,
        heap,
        &[136],
        lines![(23, 0, 0), (22, 0, 0), (23, 0, 0)],
        Some(TextFault::BadMechanism(0)),
    )?;
    expect_main(
        &rt,
        heap,
        &[136, 137],
        lines![(22, 0, 0), (23, 0, 1)],
        Some(TextFault::BadMechanism(1)),
    )
}

#[test]
fn mechanisms_left_over(rt: HostRuntime) -> Result<(), Fail> {
    let heap = rt.alloc();
    expect_main(
        &rt,
        heap,
        &[136],
        lines![(22, 0, 0), (5, 0, 0)],
        Some(TextFault::BadMechanism(2)),
    )?;
    // MECH_BEGIN as MAIN's last line
    expect(
        &rt,
        heap,
        &[136],
        &[0, 0, 0, 1, 1, 0, 0],
        lines![(22, 0, 0), (24, 0, 0)],
        Some(TextFault::BadMechanism(1)),
    )?;
    // begun nowhere
    expect_main(
        &rt,
        heap,
        &[136],
        lines![],
        Some(TextFault::BadMechanism(0)),
    )?;
    expect(
        &rt,
        heap,
        &[136],
        &[2, 0, 0, 0, 0, 0, 0],
        lines![(5, 0, 0), (5, 0, 0)],
        Some(TextFault::BadMechanism(2)),
    )?;
    expect_main(
        &rt,
        heap,
        &[136, 137],
        lines![(22, 0, 1), (23, 0, 1)],
        Some(TextFault::BadMechanism(2)),
    )?;
    // MAIN's end comes before a line of INIT
    expect(
        &rt,
        heap,
        &[136, 137],
        &[0, 0, 0, 0, 2, 0, 0],
        lines![(5, 0, 0), (22, 0, 0)],
        Some(TextFault::BadMechanism(0)),
    )
}

#[test]
fn bad_jumps(rt: HostRuntime) -> Result<(), Fail> {
    let heap = rt.alloc();
    // to itself, back, to the next line, to the end, and past it
    expect_input(&rt, heap, lines![(9, 0, 0)], Some(TextFault::BadJump(0)))?;
    expect_input(
        &rt,
        heap,
        lines![(5, 0, 0), (10, 0, 0)],
        Some(TextFault::BadJump(1)),
    )?;
    expect_input(&rt, heap, lines![(9, 0, 1), (5, 0, 0)], None)?;
    expect_input(&rt, heap, lines![(10, 0, 2), (5, 0, 0)], None)?;
    expect_input(
        &rt,
        heap,
        lines![(9, 0, 3), (5, 0, 0)],
        Some(TextFault::BadJump(0)),
    )?;
    // the end of INPUT is the first line of BLOCK_INIT
    expect(
        &rt,
        heap,
        &[],
        &[1, 2, 0, 0, 0, 0, 0],
        lines![(9, 0, 1), (5, 0, 0), (5, 0, 0)],
        None,
    )?;
    expect(
        &rt,
        heap,
        &[],
        &[1, 2, 0, 0, 0, 0, 0],
        lines![(9, 0, 2), (5, 0, 0), (5, 0, 0)],
        Some(TextFault::BadJump(0)),
    )
}

#[test]
fn jumps_and_mechanisms(rt: HostRuntime) -> Result<(), Fail> {
    let heap = rt.alloc();
    // to MECH_END, and past it
    expect_main(
        &rt,
        heap,
        &[136],
        lines![(22, 0, 0), (9, 0, 2), (23, 0, 0), (5, 0, 0)],
        None,
    )?;
    expect_main(
        &rt,
        heap,
        &[136],
        lines![(22, 0, 0), (9, 0, 3), (23, 0, 0), (5, 0, 0)],
        Some(TextFault::BadJump(1)),
    )?;
    expect_main(
        &rt,
        heap,
        &[136],
        lines![(22, 0, 0), (9, 0, 3), (23, 0, 0)],
        Some(TextFault::BadJump(1)),
    )?;
    // from MAIN to MECH_BEGIN, into the mechanism, to its MECH_END, and after it
    expect_main(
        &rt,
        heap,
        &[136],
        lines![(9, 0, 1), (22, 0, 0), (5, 0, 0), (23, 0, 0)],
        None,
    )?;
    expect_main(
        &rt,
        heap,
        &[136],
        lines![(9, 0, 2), (22, 0, 0), (5, 0, 0), (23, 0, 0)],
        Some(TextFault::BadJump(0)),
    )?;
    expect_main(
        &rt,
        heap,
        &[136],
        lines![(9, 0, 3), (22, 0, 0), (5, 0, 0), (23, 0, 0)],
        Some(TextFault::BadJump(0)),
    )?;
    expect_main(
        &rt,
        heap,
        &[136],
        lines![(9, 0, 4), (22, 0, 0), (5, 0, 0), (23, 0, 0)],
        None,
    )
}

#[test]
fn bad_exits(rt: HostRuntime) -> Result<(), Fail> {
    let heap = rt.alloc();
    expect_input(
        &rt,
        heap,
        lines![(5, 0, 0), (11, 0, 0)],
        Some(TextFault::BadExit(1)),
    )?;
    expect_main(
        &rt,
        heap,
        &[],
        lines![(12, 0, 0)],
        Some(TextFault::BadExit(0)),
    )?;
    expect(
        &rt,
        heap,
        &[],
        &[0, 1, 1, 0, 0, 0, 0],
        lines![(13, 0, 0), (12, 0, 0)],
        None,
    )?;
    expect_main(
        &rt,
        heap,
        &[136],
        lines![(22, 0, 0), (11, 0, 0), (23, 0, 0)],
        None,
    )?;
    expect_main(
        &rt,
        heap,
        &[136],
        lines![(22, 0, 0), (23, 0, 0), (13, 0, 0)],
        Some(TextFault::BadExit(2)),
    )?;
    expect(
        &rt,
        heap,
        &[],
        &[0, 0, 0, 0, 0, 0, 1],
        lines![(13, 0, 0)],
        Some(TextFault::BadExit(0)),
    )
}

#[test]
fn bad_inits(rt: HostRuntime) -> Result<(), Fail> {
    let heap = rt.alloc();
    expect(
        &rt,
        heap,
        &[136],
        &[0, 0, 0, 2, 1, 1, 0],
        lines![(22, 0, 0), (23, 0, 0), (24, 0, 0), (24, 0, 0)],
        None,
    )?;
    expect_main(
        &rt,
        heap,
        &[136],
        lines![(22, 0, 0), (23, 0, 0), (24, 0, 0)],
        Some(TextFault::BadInit(2)),
    )?;
    expect_main(
        &rt,
        heap,
        &[136],
        lines![(22, 0, 0), (24, 0, 0), (23, 0, 0)],
        Some(TextFault::BadInit(1)),
    )?;
    expect(
        &rt,
        heap,
        &[136],
        &[0, 0, 0, 2, 0, 0, 1],
        lines![(22, 0, 0), (23, 0, 0), (24, 0, 0)],
        Some(TextFault::BadInit(2)),
    )?;
    // no line at all
    expect(&rt, heap, &[], &[0, 0, 0, 0, 0, 0, 0], lines![], None)
}

#[test]
fn views_of_the_gate_program(rt: HostRuntime) -> Result<(), Fail> {
    let heap = rt.alloc();
    let text = lines![
        (1, 0, 0),
        (8, 1, 136),
        (22, 0, 0),
        (7, 1, 64),
        (11, 0, 0),
        (1, 0, 1),
        (12, 0, 0),
        (7, 0, 64),
        (23, 0, 0),
        (24, 0, 0),
        (24, 0, 0)
    ];
    let program = program(heap, &[136], &[0, 0, 0, 9, 1, 1, 0], text)?.ok_or("no program")?;
    let Ok(formed) = form(heap, program) else {
        return Err(Fail::new("not formed"));
    };
    assert_eq!(rt;
        formed.span(UnitId::Mechanism(0)),
        Some(Span { first: 3, end: 9 })
    );
    assert_eq!(rt;
        formed.span(UnitId::Module(3)),
        Some(Span { first: 0, end: 9 })
    );
    assert_eq!(rt; formed.span(UnitId::Module(7)), None);
    assert_eq!(rt; formed.module_span(7), None);
    assert_eq!(rt; formed.unit_of(2), Some(UnitId::Module(3)));
    assert_eq!(rt; formed.unit_of(3), Some(UnitId::Mechanism(0)));
    assert_eq!(rt; formed.unit_of(8), Some(UnitId::Mechanism(0)));
    assert_eq!(rt; formed.unit_of(11), None);
    assert_eq!(rt; formed.flag_at(1), Some(true));
    assert_eq!(rt; formed.flag_at(2), Some(false));
    assert_eq!(rt;
        formed.line(4),
        Some(Line {
            code: 11,
            mode: 0,
            operand: 0,
        })
    );
    Ok(())
}
