// Lines that are printed as they are read, and the draws of a bench.
use crate::same::same;
use script_text::{Generator, Line, Op, Parsed, Round, parse_line, print_line};
use std::alloc::Global;

#[test]
fn the_first_draw_of_seed_0(rt: HostRuntime) {
    let mut generator = Generator::new(0);
    same(&rt, generator.next(), 335_903_614);
}

#[test]
fn the_first_rounds_of_seed_0(rt: HostRuntime) {
    let mut generator = Generator::new(0);
    let mut round = Round::empty();
    same(&rt, round.text(), b"".as_slice());
    round.draw(&mut generator);
    same(
        &rt,
        round.text(),
        b"1 begin\n2 begin\n1 get 62 8 4\n1 put 17 36 da\n2 get 17 8 4\n2 put 62 8 36\n1 end\n2 end\n".as_slice(),
    );
    round.draw(&mut generator);
    same(
        &rt,
        round.text(),
        b"1 begin\n2 begin\n1 get 48 4 4\n1 put 14 28 9e\n2 get 14 4 4\n2 put 48 4 a4\n1 end\n2 end\n".as_slice(),
    );
}

// The operation of a line.
fn op_in(alloc: Global, line: &[u8]) -> Option<Op> {
    match parse_line(alloc, line) {
        Ok(Parsed::Line(Line { client: _, op })) => Some(op),
        _ => None,
    }
}

// Whether the operation of client 9 is printed so.
fn prints(alloc: Global, op: Op, wanted: &[u8]) -> bool {
    match print_line(alloc, &Line { client: 9, op }) {
        Ok(line) => line.as_slice() == wanted,
        Err(_) => false,
    }
}

// Whether a line is read and printed so.
fn is_printed_as_read(alloc: Global, line: &[u8]) -> bool {
    match op_in(alloc, line) {
        Some(op) => prints(alloc, op, line),
        None => false,
    }
}

#[test]
fn lines_are_printed_as_they_are_read(rt: HostRuntime) {
    let alloc = rt.alloc();
    for line in [
        b"9 begin snapshot".as_slice(),
        b"9 compact",
        b"9 put 4294967295 0 ab01",
        b"9 get 3 20 100",
        b"9 mark 5 6",
        b"9 release z0",
        b"9 group a",
        b"9 group a b1 a 0123456789abcdef z",
        b"9 fnew 61",
        b"9 fnew -",
        b"9 fwrite 6162 4294967295 00ff",
        b"9 fread 61 0 4096",
        b"9 fmove 61 62",
        b"9 fdel 61",
    ] {
        same(&rt, (line, is_printed_as_read(alloc, line)), (line, true));
    }
}
