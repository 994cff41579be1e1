// Runs the third call on the cases of a file, and writes each answer as the small program does.
//
// The file `relations` holds cases of seven bytes, numbers high byte first: the record number in four, the relation in one (1 up, 2 down, 3 top, 4 bottom), the places of the list in two.
// All are asked of the image in the file `campus.image`.
#![tactic(auto)]

use files::{fail, part, read_full};
use registry::{MOST_RECORDS, PerRecord, Relation};
use std::fs;
use std::rt::Files;

// The bytes of a case.
const CASE: usize = 7;

fn number(rt: &impl Print, n: u32) {
    let _ = rt.print(n);
}

fn next_number(rt: &impl Print, n: u32) {
    let _ = rt.write_all(b" ");
    number(rt, n);
}

// The first record numbers of the list, so many.
fn records(rt: &impl Print, list: &[u32], count: usize) {
    for n in list.iter().take(count) {
        next_number(rt, *n);
    }
}

fn ask(rt: &impl Print, image: &[u8], record: u32, relation: Relation, list: &mut [u32]) {
    let a = rdap::relation(image, record, relation, list);
    number(rt, a.reason.status());
    next_number(rt, a.reason.number());
    next_number(rt, kinds::kind_number(a.kind));
    next_number(rt, a.count);
    records(rt, list, answers::reports(a) as usize);
    let _ = rt.write_all(b"\n");
}

// Lends as many places as the case has, of 4,096.
fn ask_with(
    rt: &impl Print,
    image: &[u8],
    record: u32,
    relation: Relation,
    list: &mut [u32],
    room: usize,
) {
    if let Some(places) = list.get_mut(..room) {
        ask(rt, image, record, relation, places);
    }
}

fn relation_of(n: u8) -> Relation {
    match n {
        1 => Relation::Up,
        2 => Relation::Down,
        3 => Relation::Top,
        _ => Relation::Bottom,
    }
}

fn run_case(rt: &impl Print, image: &[u8], case: &[u8], list: &mut [u32]) {
    if let [a, b, c, d, relation, high, low] = case {
        let record = u32::from_be_bytes([*a, *b, *c, *d]);
        let room = u16::from_be_bytes([*high, *low]);
        ask_with(
            rt,
            image,
            record,
            relation_of(*relation),
            list,
            usize::from(room),
        );
    }
}

fn run_cases(rt: &impl Print, image: &[u8], cases: &[u8], list: &mut [u32]) {
    for case in cases.chunks_exact(CASE) {
        run_case(rt, image, case, list);
    }
}

// Reads the start of a file of the folder.
fn read_file(rt: &impl Files, err: &impl Print, name: &str, room: &mut [u8; 4096]) -> usize {
    match fs::open(rt, name) {
        Ok(mut from) => {
            let (n, _) = read_full(&mut from, room);
            n
        }
        Err(e) => {
            fail(err, name.as_bytes(), &e);
            0
        }
    }
}

fn run_files(
    rt: &(impl Files + Print),
    err: &impl Print,
    image: &mut [u8; 4096],
    cases: &mut [u8; 4096],
    list: &mut PerRecord,
) {
    let m = read_file(rt, err, "campus.image", image);
    let n = read_file(rt, err, "relations", cases);
    run_cases(rt, part(image, 0, m), part(cases, 0, n), list);
}

fn main(rt: HostRuntime) {
    let mut image = [0u8; 4096];
    let mut cases = [0u8; 4096];
    let mut list = [0u32; MOST_RECORDS];
    run_files(&rt, &rt.stderr(), &mut image, &mut cases, &mut list);
}
