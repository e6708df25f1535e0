use crate::name_of;
use std::test::*;

#[derive(Clone, Copy)]
enum Kind {
    Plain,
    Pair(u8, u8),
    Other(&'static str),
}

fn name(kind: Kind) -> &'static str {
    name_of!(kind: Kind { Plain, Pair(_, _), Other(name) => name })
}

#[test]
fn names(rt: HostRuntime) {
    assert_eq!(rt; name(Kind::Plain), "Plain");
    assert_eq!(rt; name(Kind::Pair(1, 2)), "Pair");
    assert_eq!(rt; name(Kind::Other("else")), "else");
}
