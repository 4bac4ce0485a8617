// The route table at its edges: which routes make one, and which account a destination gets.
use routing::route::Route;
use routing::table::Routes;
use std::alloc::{AllocError, Global};
use std::fmt::Display;
use std::process::Abort;
use std::test::Fail;

fn made(heap: Global, accounts: u8, routes: &[Route<'_>]) -> Result<Routes, Fail> {
    Routes::new(heap, accounts, routes).map_err(|_| Fail::new("not made"))
}

fn check_refused(
    rt: &impl Abort,
    heap: Global,
    accounts: u8,
    routes: &[Route<'_>],
    case: &impl Display,
) -> Result<(), Fail> {
    let why = Routes::new(heap, accounts, routes)
        .err()
        .ok_or_else(|| Fail::new(format_args!("{case}: made")))?;
    assert_eq!(rt; why.number(), 8, "{case}");
    Ok(())
}

fn route(prefix: &[u8], account: u8) -> Route<'_> {
    Route { prefix, account }
}

// Nested prefixes, neither the longest first nor the shortest.
const NESTED: [Route<'static>; 4] = [
    Route {
        prefix: b"g.a",
        account: 1,
    },
    Route {
        prefix: b"g.a.b",
        account: 2,
    },
    Route {
        prefix: b"g",
        account: 0,
    },
    Route {
        prefix: b"g.ab",
        account: 3,
    },
];

// A prefix matches by its bytes, and not by segments.
const FOUND: [(&'static [u8], Option<u8>); 10] = [
    (b"g.a.b.c", Some(2)),
    (b"g.a.b", Some(2)),
    (b"g.a.", Some(1)),
    (b"g.a", Some(1)),
    (b"g.ac.b", Some(1)),
    (b"g.abc", Some(3)),
    (b"g.b", Some(0)),
    (b"g", Some(0)),
    (b"test.g.a", None),
    (b"", None),
];

#[test]
fn the_longest_prefix_is_taken(rt: HostRuntime) -> Result<(), Fail> {
    let table = made(rt.alloc(), 4, &NESTED)?;
    assert_eq!(rt; table.count(), 4);
    assert_eq!(rt; table.accounts(), 4);
    for (i, (destination, account)) in FOUND.iter().enumerate() {
        assert_eq!(rt; table.find(destination), *account, "{i}");
    }
    Ok(())
}

#[test]
fn the_empty_prefix_and_no_route(rt: HostRuntime) -> Result<(), Fail> {
    let every = made(rt.alloc(), 8, &[route(b"", 7), route(b"test", 2)])?;
    assert_eq!(rt; every.find(b"test.a"), Some(2));
    assert_eq!(rt; every.find(b"g.a"), Some(7));
    assert_eq!(rt; every.find(b""), Some(7));
    let none = made(rt.alloc(), 0, &[])?;
    assert_eq!(rt; none.count(), 0);
    assert_eq!(rt; none.find(b"g.a"), None);
    Ok(())
}

// 33 prefixes of three bytes, all different.
static PREFIXES: [u8; 99] =
    *b"g.Ag.Bg.Cg.Dg.Eg.Fg.Gg.Hg.Ig.Jg.Kg.Lg.Mg.Ng.Og.Pg.Qg.Rg.Sg.Tg.Ug.Vg.Wg.Xg.Yg.Zg.ag.bg.cg.dg.eg.fg.g";

fn routes(heap: Global) -> Result<Vec<Route<'static>>, AllocError> {
    let mut all = Vec::new(heap);
    for (i, prefix) in PREFIXES.chunks_exact(3).enumerate() {
        all.push(route(prefix, (i % 8) as u8))?;
    }
    Ok(all)
}

#[test]
fn thirty_two_routes_at_most(rt: HostRuntime) -> Result<(), Fail> {
    let all = routes(rt.alloc())?;
    assert!(rt; all.len() == 33);
    let table = made(rt.alloc(), 8, &all[0..32])?;
    assert_eq!(rt; table.count(), 32);
    assert_eq!(rt; table.find(b"g.A.x"), Some(0), "the first");
    assert_eq!(rt; table.find(b"g.f.x"), Some(7), "the 32nd");
    assert_eq!(rt; table.find(b"g.g.x"), None, "the 33rd");
    check_refused(&rt, rt.alloc(), 8, &all, &"33 routes")
}

// 65 bytes.
static LONG: [u8; 65] = *b"g.aaaaaaaaaabbbbbbbbbbccccccccccddddddddddeeeeeeeeeeffffffffffabc";

#[test]
fn prefixes_of_sixty_four_bytes_at_most(rt: HostRuntime) -> Result<(), Fail> {
    let table = made(rt.alloc(), 8, &[route(&LONG[0..64], 5)])?;
    assert_eq!(rt; table.find(&LONG), Some(5));
    assert_eq!(rt; table.find(&LONG[0..64]), Some(5));
    assert_eq!(rt; table.find(&LONG[0..63]), None);
    check_refused(&rt, rt.alloc(), 8, &[route(&LONG, 5)], &"65 bytes")
}

const NO_PREFIXES: [&'static [u8]; 8] = [
    b".", b"g.", b"g..a", b"g.a.", b"h", b"G", b"test4.a", b"g.a b",
];

#[test]
fn malformed_prefixes_are_refused(rt: HostRuntime) -> Result<(), Fail> {
    for (i, prefix) in NO_PREFIXES.iter().enumerate() {
        check_refused(&rt, rt.alloc(), 8, &[route(prefix, 0)], &i)?;
    }
    Ok(())
}

#[test]
fn accounts_at_their_bound(rt: HostRuntime) -> Result<(), Fail> {
    let last = made(rt.alloc(), 3, &[route(b"g", 2)])?;
    assert_eq!(rt; last.find(b"g.a"), Some(2));
    check_refused(&rt, rt.alloc(), 3, &[route(b"g", 3)], &"one too high")?;
    check_refused(&rt, rt.alloc(), 0, &[route(b"g", 0)], &"no accounts")
}

#[test]
fn no_prefix_twice(rt: HostRuntime) -> Result<(), Fail> {
    check_refused(
        &rt,
        rt.alloc(),
        8,
        &[route(b"", 0), route(b"", 1)],
        &"empty",
    )?;
    check_refused(
        &rt,
        rt.alloc(),
        8,
        &[NESTED[0], NESTED[2], NESTED[0]],
        &"first and last",
    )?;
    check_refused(
        &rt,
        rt.alloc(),
        8,
        &[NESTED[2], NESTED[1], NESTED[1]],
        &"the last two",
    )
}
