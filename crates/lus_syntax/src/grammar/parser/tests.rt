use super::*;
use crate::ast::{Decl, Group, Item, Spot};
use crate::test_helpers::ALARM;
use crate::tokens::crowding::crowded;
use crate::tokens::lexer::lex;
use cov_base::{List, Memory};
use std::test::Fail;

/// The answer where a text isn't cut, is crowded, or memory is wanted.
const OTHER: u32 = 4_294_967_295;

/// The tree of a text, or the place of its fault.
fn read(alloc: Global, text: &[u8]) -> Result<Ast, u32> {
    if text.len() > MOST_BYTES {
        return Err(OTHER);
    }
    let Ok(list) = lex(alloc, text) else {
        return Err(OTHER);
    };
    let tokens = list.as_slice();
    match crowded(tokens) {
        Some(_) => Err(OTHER),
        None => parse(alloc, text, tokens).map_err(place_of),
    }
}

fn place_of(fault: SyntaxFault) -> u32 {
    match fault {
        SyntaxFault::Token(place) => place,
        SyntaxFault::Memory => OTHER,
    }
}

#[test]
fn programs(rt: HostRuntime) {
    for text in [
        b"".as_slice(),
        b"type c = enum { A };",
        b"const K = 1;",
        b"const K: real;",
        b"const K: c = 1; const L = K;",
        b"node f() returns (y: int); let tel",
        b"node f(a: int;) returns (y: int;) let tel",
        b"node f(a, b: int; c: bool when a) returns (y: int) let tel",
        b"node f() returns (y: int) var z: int; u, v: bool when a; let tel",
        b"node f() returns (y: int) let y, z = x; (y, z) = x; (y) = x; tel",
        b"node f() returns (y: int) let assert x; y = x; tel",
        b"node f() returns (y: int) let tel.",
        b"node f() returns (y: int) let tel node g() returns (y: int) let tel; const K = 1;",
    ] {
        assert!(rt; read(rt.alloc(), text).is_ok());
    }
}

#[test]
fn places_of_declarations(rt: HostRuntime) {
    for (text, place) in [
        (b"x".as_slice(), 0u32),
        (b";", 0),
        (b"type", 1),
        (b"type bool = enum { A };", 1),
        (b"type c enum { A };", 2),
        (b"type c = { A };", 3),
        (b"type c = enum { };", 5),
        (b"type c = enum { A, };", 7),
        (b"type c = enum { A B };", 6),
        (b"type c = enum { A }", 7),
        (b"type c = enum { A };;", 8),
        (b"const const K = 1;", 1),
        (b"const K;", 2),
        (b"const K: ;", 3),
        (b"const K: int int;", 4),
        (b"const K: int = ;", 5),
        (b"const K: int = 1", 6),
        (b"const K = 1 2;", 4),
        (b"const K = 1;.", 5),
        (b"node", 1),
        (b"node (x: int)", 1),
        (b"node f(): int let tel", 4),
    ] {
        assert_eq!(rt; read(rt.alloc(), text).err(), Some(place));
    }
}

#[test]
fn places_before_let(rt: HostRuntime) {
    for (text, place) in [
        (b"node f(;) returns (y: int); let tel".as_slice(), 3u32),
        (b"node f(a: int;;) returns (y: int); let tel", 7),
        (b"node f(a b: int) returns (y: int); let tel", 4),
        (b"node f(a,: int) returns (y: int); let tel", 5),
        (b"node f(a: 1) returns (y: int); let tel", 5),
        (b"node f(a: int when) returns (y: int); let tel", 7),
        (b"node f(a: int when c when d) returns (y: int); let tel", 8),
        (b"node f(a: int returns (y: int); let tel", 6),
        (b"node f(a: int) returns (); let tel", 9),
        (b"node f() returns y: int) let tel", 5),
        (b"node f() returns (y: int)", 10),
        (b"node f() returns (y: int);; let tel", 11),
        (b"node f() returns (y: int). let tel", 10),
        (b"node f() returns (y: int); var let tel", 12),
        (b"node f() returns (y: int) var z: int let tel", 14),
        (
            b"node f() returns (y: int) var z: int; var u: int; let tel",
            15,
        ),
    ] {
        assert_eq!(rt; read(rt.alloc(), text).err(), Some(place));
    }
}

#[test]
fn places_of_items(rt: HostRuntime) {
    for (text, place) in [
        (b"node f() returns (y: int) let".as_slice(), 11u32),
        (b"node f() returns (y: int) let 1 = x; tel", 11),
        (b"node f() returns (y: int) let y = x tel", 14),
        (b"node f() returns (y: int) let y = ; tel", 13),
        (b"node f() returns (y: int) let y == x; tel", 13),
        (b"node f() returns (y: int) let y = x;; tel", 15),
        (b"node f() returns (y: int) let (y, z = x; tel", 15),
        (b"node f() returns (y: int) let () = x; tel", 12),
        (b"node f() returns (y: int) let (y), z = x; tel", 14),
        (b"node f() returns (y: int) let y, = x; tel", 13),
        (b"node f() returns (y: int) let assert; tel", 12),
        (b"node f() returns (y: int) let y = x; let tel", 15),
        (b"node f() returns (y: int) let tel;;", 13),
        (b"node f() returns (y: int) let tel.;", 13),
        (b"node f() returns (y: int) let tel;.", 13),
        (b"node f() returns (y: int) let tel x", 12),
    ] {
        assert_eq!(rt; read(rt.alloc(), text).err(), Some(place));
    }
}

/// The place of the fault of each front of a text's tokens, none for a front that is a program.
fn fronts(alloc: Global, text: &[u8]) -> Result<List<Option<u32>>, Fail> {
    let mut places = List::new(alloc);
    if text.len() > MOST_BYTES {
        return Ok(places);
    }
    for token in lex(alloc, text)?.as_slice() {
        let front = text.split_at((token.end as usize).min(text.len())).0;
        places.add(read(alloc, front).err())?;
    }
    Ok(places)
}

// A front stops at its end, or is a program: behind a declaration, and behind `tel`.
#[test]
fn fronts_of_a_program(rt: HostRuntime) -> Result<(), Fail> {
    let text =
        b"type c = enum { A, B }; const K: int; node f(x, u: bool when v; w: c;) returns (y: c) var z: c; let assert x; (y, z) = w; tel.";
    let places = fronts(rt.alloc(), text.as_slice())?;
    assert_eq!(rt; places.len(), 56);
    for (i, place) in places.as_slice().iter().enumerate() {
        let count = i + 1;
        if count == 10 || count == 15 || count == 55 || count == 56 {
            assert_eq!(rt; *place, None);
        } else {
            assert_eq!(rt; *place, Some(count as u32));
        }
    }
    Ok(())
}

/// A token of the example, and where the example's fault is when the token is dropped, when it
/// stands twice, when the name `z` stands in its place, and when `(` does. None where that is a
/// program.
#[derive(Clone, Copy, Drop)]
struct Changes {
    token: &'static [u8],
    dropped: Option<u32>,
    doubled: Option<u32>,
    named: Option<u32>,
    opened: Option<u32>,
}

fn row(
    token: &'static [u8],
    dropped: Option<u32>,
    doubled: Option<u32>,
    named: Option<u32>,
    opened: Option<u32>,
) -> Changes {
    Changes {
        token,
        dropped,
        doubled,
        named,
        opened,
    }
}

// node edge(x: bool) returns (y: bool); let y = false -> x and not pre x; tel
fn example() -> [Changes; 26] {
    [
        row(b"node", Some(0), Some(1), Some(0), Some(0)),
        row(b"edge", Some(1), Some(2), None, Some(1)),
        row(b"(", Some(2), Some(3), Some(2), None),
        row(b"x", Some(3), Some(4), None, Some(3)),
        row(b":", Some(4), Some(5), Some(4), Some(4)),
        row(b"bool", Some(5), Some(6), None, Some(5)),
        row(b")", Some(6), Some(7), Some(6), Some(6)),
        row(b"returns", Some(7), Some(8), Some(7), Some(7)),
        row(b"(", Some(8), Some(9), Some(8), None),
        row(b"y", Some(9), Some(10), None, Some(9)),
        row(b":", Some(10), Some(11), Some(10), Some(10)),
        row(b"bool", Some(11), Some(12), None, Some(11)),
        // The `;` behind the heading ends the outputs, and `let` is no name.
        row(b")", Some(13), Some(13), Some(12), Some(12)),
        row(b";", None, Some(14), Some(13), Some(13)),
        row(b"let", Some(14), Some(15), Some(14), Some(14)),
        row(b"y", Some(15), Some(16), None, Some(16)),
        row(b"=", Some(16), Some(17), Some(16), Some(16)),
        row(b"false", Some(17), Some(18), None, Some(18)),
        row(b"->", Some(18), Some(19), Some(18), Some(18)),
        row(b"x", Some(19), Some(20), None, Some(20)),
        // From here on an open `(` lacks its `)` at the `;`.
        row(b"and", Some(20), Some(21), Some(20), Some(24)),
        row(b"not", None, None, Some(22), Some(24)),
        row(b"pre", None, None, Some(23), Some(24)),
        row(b"x", Some(23), Some(24), None, Some(24)),
        row(b";", Some(24), Some(25), Some(24), Some(25)),
        row(b"tel", Some(25), Some(26), Some(26), Some(26)),
    ]
}

fn push_tokens(text: &mut List<u8>, tokens: &[&[u8]]) -> Result<(), Memory> {
    for token in tokens {
        text.extend_from_slice(token)?;
        text.extend_from_slice(b" ")?;
    }
    Ok(())
}

/// Where the fault is when these tokens stand in place of one of the example's.
fn changed(
    alloc: Global,
    example: &[Changes],
    place: usize,
    instead: &[&[u8]],
) -> Result<Option<u32>, Memory> {
    let mut text = List::new(alloc);
    for (i, changes) in example.iter().enumerate() {
        if i == place {
            push_tokens(&mut text, instead)?;
        } else {
            push_tokens(&mut text, &[changes.token])?;
        }
    }
    Ok(read(alloc, text.as_slice()).err())
}

#[test]
fn one_token_changed(rt: HostRuntime) -> Result<(), Fail> {
    let alloc = rt.alloc();
    let example = example();
    let all = example.as_slice();
    for (place, token) in all.iter().enumerate() {
        assert_eq!(rt; changed(alloc, all, place, &[])?, token.dropped);
        let twice = [token.token, token.token];
        assert_eq!(rt;
            changed(alloc, all, place, twice.as_slice())?,
            token.doubled
        );
        assert_eq!(rt;
            changed(alloc, all, place, &[b"z".as_slice()])?,
            token.named
        );
        assert_eq!(rt;
            changed(alloc, all, place, &[b"(".as_slice()])?,
            token.opened
        );
    }
    Ok(())
}

/// The places and the numbers of a declaration's parts: of choices; of a type and a value; of
/// inputs, outputs, locals and items.
fn sizes(decl: &Decl) -> [usize; 6] {
    match decl {
        Decl::TypeDecl { at, name, choices } => {
            [*at as usize, name.at as usize, choices.len(), 0, 0, 0]
        }
        Decl::ConstDecl {
            at,
            name,
            ty,
            value,
        } => [
            *at as usize,
            name.at as usize,
            ty.is_some() as usize,
            value.is_some() as usize,
            0,
            0,
        ],
        Decl::NodeDecl {
            at,
            name,
            inputs,
            outputs,
            locals,
            items,
        } => [
            *at as usize,
            name.at as usize,
            inputs.len(),
            outputs.len(),
            locals.len(),
            items.len(),
        ],
    }
}

/// The place of an item, and its number of names on the left.
fn left(item: &Item) -> (u32, usize) {
    match item {
        Item::Assert { at, .. } => (*at, 0),
        Item::Equation { at, left, .. } => (*at, left.len()),
    }
}

#[test]
fn declarations_of_the_alarm_controller(rt: HostRuntime) {
    let read = read(rt.alloc(), ALARM);
    assert!(rt; read.is_ok());
    if let Ok(ast) = read {
        let decls = ast.decls.as_slice();
        assert_eq!(rt; decls.len(), 5);
        let want = [
            [0usize, 5, 3, 0, 0, 0],
            [40, 46, 0, 1, 0, 0],
            [57, 62, 1, 1, 0, 1],
            [133, 138, 1, 1, 1, 2],
            [281, 286, 1, 2, 3, 6],
        ];
        for (decl, want) in decls.iter().zip(want) {
            assert_eq!(rt; sizes(decl), want);
        }
    }
}

/// The items of a program's last declaration, and none where that is no node.
fn last_items(ast: &Ast) -> Option<&[Item]> {
    match ast.decls.as_slice().last() {
        Some(Decl::NodeDecl { items, .. }) => Some(items.as_slice()),
        Some(Decl::TypeDecl { .. } | Decl::ConstDecl { .. }) | None => None,
    }
}

#[test]
fn items_of_the_alarm_controller(rt: HostRuntime) {
    let read = read(rt.alloc(), ALARM);
    assert!(rt; read.is_ok());
    if let Ok(ast) = read {
        let items = last_items(&ast);
        assert!(rt; items.is_some());
        if let Some(items) = items {
            assert_eq!(rt; items.len(), 6);
            let want = [
                (389u32, 0usize),
                (423, 1),
                (446, 1),
                (467, 1),
                (509, 1),
                (640, 1),
            ];
            for (item, want) in items.iter().zip(want) {
                assert_eq!(rt; left(item), want);
            }
        }
    }
}

fn is_spot(spot: &Spot, at: u32, text: &[u8]) -> bool {
    spot.at == at && spot.text.bytes() == text
}

/// Whether a group has one name, this type and this clock.
fn is_group(group: &Group, name: (u32, &[u8]), ty: (u32, &[u8]), clock: (u32, &[u8])) -> bool {
    let names = group.names.as_slice();
    let named = names.len() == 1 && is_spot(&names[0], name.0, name.1);
    let clocked = match &group.clock {
        None => clock.0 == 0,
        Some(spot) => is_spot(spot, clock.0, clock.1),
    };
    named && clocked && is_spot(&group.ty, ty.0, ty.1)
}

/// Whether there is one group, with this name, this type and this clock.
fn is_one_group(
    groups: &[Group],
    name: (u32, &[u8]),
    ty: (u32, &[u8]),
    clock: (u32, &[u8]),
) -> bool {
    match groups {
        [group] => is_group(group, name, ty, clock),
        _ => false,
    }
}

#[test]
fn edge_and_its_groups(rt: HostRuntime) {
    let text =
        b"node edge(x: bool) returns (y: bool when x); let y = false -> x and not pre x; tel";
    let read = read(rt.alloc(), text.as_slice());
    assert!(rt; read.is_ok());
    if let Ok(ast) = read {
        assert_eq!(rt; ast.length, 82);
        match ast.decls.as_slice() {
            [
                Decl::NodeDecl {
                    inputs,
                    outputs,
                    items,
                    ..
                },
            ] => {
                let none = b"".as_slice();
                let (x, y, ty) = (b"x".as_slice(), b"y".as_slice(), b"bool".as_slice());
                assert!(rt; is_one_group(inputs.as_slice(), (10, x), (13, ty), (0, none)));
                assert!(rt; is_one_group(outputs.as_slice(), (28, y), (31, ty), (36, x)));
                assert_eq!(rt; items.len(), 1);
                assert_eq!(rt; left(&items.as_slice()[0]), (51, 1));
            }
            _ => assert!(rt; false),
        }
    }
}
