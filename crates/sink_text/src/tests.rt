ghost use Rattle.std.specs.Prelude.{None};

use super::*;
use dev_traits::{Failed, Sink};
use mem_devices::MemSink;
use std::test::*;

// A sink that keeps the length of each of its first eight writes.
#[derive(Drop)]
struct Lengths {
    lengths: [usize; 8],
    writes: usize,
}

impl Sink for Lengths {
    ghost told = { λ _. None };

    ghost faults = { λ _. 0 };

    fn write(&mut self, bytes: &[u8]) -> Result<usize, Failed> {
        if self.writes < 8 {
            self.lengths[self.writes] = bytes.len();
            self.writes += 1;
        }
        Ok(bytes.len())
    }
}

const EACH: [Piece<'static>; 7] = [
    Piece::Text("a "),
    Piece::Number(18_446_744_073_709_551_615),
    Piece::Bytes(b" \xE4 "),
    Piece::Signed(-9_223_372_036_854_775_808),
    Piece::Text(" "),
    Piece::Signed(7),
    Piece::Number(0),
];

#[test]
fn each_piece(rt: HostRuntime) -> Result<(), Fail> {
    let mut sink = MemSink::new(rt.alloc(), 5, Vec::new(rt.alloc()));
    assert_eq!(rt; append_pieces(&EACH, &mut sink), Ok(()));
    assert_eq!(rt;
        sink.bytes(),
        b"a 18446744073709551615 \xE4 -9223372036854775808 70".as_slice()
    );
    Ok(())
}

#[test]
fn a_fault(rt: HostRuntime) -> Result<(), Fail> {
    let mut sink = MemSink::new(rt.alloc(), 4, vec![in rt.alloc(); 2]?);
    assert_eq!(rt; append_pieces(&EACH, &mut sink), Err(Failed));
    assert_eq!(rt; sink.bytes(), b"a 184467".as_slice());
    Ok(())
}

// What fits into 8,192 bytes waits for more; what is longer goes by itself.
#[test]
fn whole_stretches(rt: HostRuntime) -> Result<(), Fail> {
    let text = vec![in rt.alloc(); 65u8; 9000]?;
    let parts = [
        Piece::Bytes(&text[..5000]),
        Piece::Bytes(&text[..3192]),
        Piece::Number(1),
        Piece::Bytes(&text),
        Piece::Number(2),
    ];
    let mut sink = Lengths {
        lengths: [0; 8],
        writes: 0,
    };
    assert_eq!(rt; append_pieces(&parts, &mut sink), Ok(()));
    assert_eq!(rt; sink.lengths, [8192, 1, 9000, 1, 0, 0, 0, 0]);
    Ok(())
}
