// Every fault, at its first and at its last possible place.
use crate::samples::{
    LONGEST, MOST_RECORDS, REPLICAS, TRAFFIC, byte_at, figures_of, figures_of_writing,
    figures_with, post, put, told, widen,
};

#[test]
fn lengths_that_are_no_papers(rt: HostRuntime) {
    let bytes = [0; 51712];
    assert_eq!(rt; figures_of(&bytes[0..0]), told(13, 0, 0));
    assert_eq!(rt; figures_of(&bytes[0..511]), told(13, 0, 0));
    assert_eq!(rt; figures_of(&bytes[0..513]), told(13, 0, 0));
    assert_eq!(rt; figures_of(&bytes[0..51201]), told(13, 0, 0));
    assert_eq!(rt; figures_of(&bytes), told(13, 0, 0));
}

#[test]
fn checks_that_do_not_hold(rt: HostRuntime) {
    let mut paper = [0; LONGEST];
    assert_eq!(rt;
        figures_of_writing(TRAFFIC, &[post(1, 9); MOST_RECORDS], &mut paper),
        None
    );
    let last = byte_at(&paper, 99, 511);
    put(&mut paper, 99, 511, last ^ 1);
    assert_eq!(rt; figures_of(&paper), told(14, 99, 0));
    let first = byte_at(&paper, 0, 0);
    put(&mut paper, 0, 0, first ^ 1);
    assert_eq!(rt; figures_of(&paper), told(14, 0, 0));
}

#[test]
fn fields_out_of_their_limits(rt: HostRuntime) {
    let mut paper = [0; 512];
    assert_eq!(rt;
        figures_of_writing(REPLICAS, &[post(1, 0)], &mut paper),
        None
    );
    assert_eq!(rt; figures_with(&mut paper, 0, 0, 1), told(15, 0, 0));
    assert_eq!(rt; figures_with(&mut paper, 0, 1, 1), told(15, 0, 0));
    assert_eq!(rt; figures_with(&mut paper, 0, 2, 0), told(15, 0, 0));
    assert_eq!(rt; figures_with(&mut paper, 0, 2, 2), told(15, 0, 0));
    assert_eq!(rt; figures_with(&mut paper, 0, 3, 0), told(15, 0, 0));
    assert_eq!(rt; figures_with(&mut paper, 0, 3, 8), None);
    assert_eq!(rt; figures_with(&mut paper, 0, 3, 9), told(15, 0, 0));
    assert_eq!(rt; figures_with(&mut paper, 0, 4, 0), told(15, 0, 0));
    assert_eq!(rt; figures_with(&mut paper, 0, 4, 2), None);
    assert_eq!(rt; figures_with(&mut paper, 0, 4, 3), told(15, 0, 0));
    assert_eq!(rt; figures_with(&mut paper, 0, 5, 0), told(15, 0, 0));
    assert_eq!(rt; figures_with(&mut paper, 0, 5, 3), told(15, 0, 0));
}

#[test]
fn counts_and_places_that_are_wrong(rt: HostRuntime) {
    let mut paper = [0; 1024];
    assert_eq!(rt;
        figures_of_writing(TRAFFIC, &[post(1, 9); 20], &mut paper),
        None
    );
    assert_eq!(rt; figures_with(&mut paper, 0, 6, 18), told(15, 0, 0));
    assert_eq!(rt; figures_with(&mut paper, 0, 6, 20), told(15, 0, 0));
    assert_eq!(rt; figures_with(&mut paper, 1, 6, 0), told(15, 1, 0));
    assert_eq!(rt; figures_with(&mut paper, 1, 6, 20), told(15, 1, 0));
    assert_eq!(rt; figures_with(&mut paper, 0, 7, 1), told(15, 0, 0));
    assert_eq!(rt; figures_with(&mut paper, 1, 7, 0), told(15, 1, 0));
}

#[test]
fn headers_other_than_the_first(rt: HostRuntime) {
    let mut paper = [0; LONGEST];
    assert_eq!(rt;
        figures_of_writing(TRAFFIC, &[post(1, 9); MOST_RECORDS], &mut paper),
        None
    );
    assert_eq!(rt; figures_with(&mut paper, 1, 0, 2), told(15, 1, 0));
    assert_eq!(rt; figures_with(&mut paper, 99, 2, 2), told(15, 99, 0));
    assert_eq!(rt; figures_with(&mut paper, 99, 3, 7), told(15, 99, 0));
    assert_eq!(rt; figures_with(&mut paper, 99, 4, 1), told(15, 99, 0));
    assert_eq!(rt; figures_with(&mut paper, 99, 5, 1), told(15, 99, 0));
}

#[test]
fn unfit_records(rt: HostRuntime) {
    let mut paper = [0; LONGEST];
    assert_eq!(rt;
        figures_of_writing(TRAFFIC, &[post(0, 0); MOST_RECORDS], &mut paper),
        None
    );
    assert_eq!(rt; figures_with(&mut paper, 0, 8, 0), told(16, 0, 1));
    assert_eq!(rt; figures_with(&mut paper, 99, 476, 7), told(16, 99, 19));
    assert_eq!(rt; figures_with(&mut paper, 99, 476, 2), None);
    assert_eq!(rt; figures_with(&mut paper, 99, 476, 4), None);
    assert_eq!(rt; figures_with(&mut paper, 99, 476, 5), told(16, 99, 19));
}

// The first and the last byte of a key, of packets and of octets.
#[test]
fn bytes_that_a_call_does_not_take(rt: HostRuntime) {
    let mut paper = [0; 512];
    assert_eq!(rt;
        figures_of_writing(TRAFFIC, &[post(0, 0), widen()], &mut paper),
        None
    );
    assert_eq!(rt; figures_with(&mut paper, 0, 35, 1), told(16, 0, 2));
    assert_eq!(rt; figures_with(&mut paper, 0, 47, 1), told(16, 0, 2));
    assert_eq!(rt; figures_with(&mut paper, 0, 48, 1), told(16, 0, 2));
    assert_eq!(rt; figures_with(&mut paper, 0, 51, 1), told(16, 0, 2));
    assert_eq!(rt; figures_with(&mut paper, 0, 52, 1), told(16, 0, 2));
    assert_eq!(rt; figures_with(&mut paper, 0, 59, 1), told(16, 0, 2));
    assert_eq!(rt; figures_with(&mut paper, 0, 22, 1), None);
}

#[test]
fn octets_of_replicas(rt: HostRuntime) {
    let mut paper = [0; 512];
    assert_eq!(rt;
        figures_of_writing(REPLICAS, &[post(1, 0)], &mut paper),
        None
    );
    assert_eq!(rt; figures_with(&mut paper, 0, 26, 1), told(16, 0, 1));
    assert_eq!(rt; figures_with(&mut paper, 0, 33, 1), told(16, 0, 1));
    assert_eq!(rt; figures_with(&mut paper, 0, 25, 1), None);
}

#[test]
fn bytes_behind_the_records(rt: HostRuntime) {
    let mut paper = [0; 512];
    assert_eq!(rt;
        figures_of_writing(TRAFFIC, &[post(1, 9)], &mut paper),
        None
    );
    assert_eq!(rt; figures_with(&mut paper, 0, 34, 1), told(16, 0, 2));
    assert_eq!(rt; figures_with(&mut paper, 0, 59, 1), told(16, 0, 2));
    assert_eq!(rt; figures_with(&mut paper, 0, 60, 1), told(16, 0, 3));
    assert_eq!(rt; figures_with(&mut paper, 0, 501, 1), told(16, 0, 19));
    assert_eq!(rt; figures_with(&mut paper, 0, 502, 1), told(16, 0, 0));
    assert_eq!(rt; figures_with(&mut paper, 0, 503, 1), told(16, 0, 0));
}

#[test]
fn the_last_bytes_of_the_longest(rt: HostRuntime) {
    let mut paper = [0; LONGEST];
    assert_eq!(rt;
        figures_of_writing(TRAFFIC, &[post(1, 9); MOST_RECORDS], &mut paper),
        None
    );
    assert_eq!(rt; figures_with(&mut paper, 0, 502, 1), told(16, 0, 0));
    assert_eq!(rt; figures_with(&mut paper, 99, 503, 1), told(16, 99, 0));
}
