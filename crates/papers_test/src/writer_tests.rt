// The bytes that are written, and refusals, which leave the buffer as it was.
use crate::samples::{
    KEY, LONGEST, MOST_RECORDS, REPLICAS, TRAFFIC, figures_of, figures_of_writing, post, told,
    widen,
};
use blocks::fault::Figures;
use paper::header::Header;
use paper::record::{Call, Record};
use std::process::Abort;

#[test]
fn the_smallest_paper(rt: HostRuntime) {
    let mut paper = [255; 512];
    assert_eq!(rt;
        figures_of_writing(TRAFFIC, &[post(0x04030201, 0x0807060504030201)], &mut paper),
        None
    );
    assert_eq!(rt; &paper[0..9], [0, 1, 1, 8, 2, 2, 1, 0, 1].as_slice());
    assert_eq!(rt; &paper[9..22], KEY.as_slice());
    assert_eq!(rt;
        &paper[22..34],
        [1, 2, 3, 4, 1, 2, 3, 4, 5, 6, 7, 8].as_slice()
    );
    assert_eq!(rt; &paper[34..504], [0; 470].as_slice());
    assert_eq!(rt; figures_of(&paper), None);
}

#[test]
fn the_largest_paper(rt: HostRuntime) {
    let mut paper = [255; LONGEST];
    assert_eq!(rt;
        figures_of_writing(TRAFFIC, &[post(1, 9); MOST_RECORDS], &mut paper),
        None
    );
    assert_eq!(rt;
        &paper[50688..50697],
        [0, 1, 1, 8, 2, 2, 19, 99, 1].as_slice()
    );
    assert_eq!(rt; figures_of(&paper), None);
}

// Each is refused, with the figures, and the buffer is kept.
fn refused(rt: &impl Abort, header: Header, records: &[Record], figures: Option<Figures>) {
    let mut buffer = [7; 1024];
    assert_eq!(rt; figures_of_writing(header, records, &mut buffer), figures);
    assert_eq!(rt; buffer, [7; 1024]);
}

#[test]
fn lengths_are_refused(rt: HostRuntime) {
    refused(&rt, TRAFFIC, &[], told(13, 0, 0));
    refused(&rt, TRAFFIC, &[post(1, 9); 19], told(13, 0, 0));
    refused(&rt, TRAFFIC, &[post(1, 9); 39], told(13, 0, 0));
    let mut none = [0; 0];
    assert_eq!(rt; figures_of_writing(TRAFFIC, &[], &mut none), told(13, 0, 0));
    let mut long = [7; 51712];
    assert_eq!(rt;
        figures_of_writing(TRAFFIC, &[post(1, 9); 1901], &mut long),
        told(13, 0, 0)
    );
    assert_eq!(rt; long, [7; 51712]);
}

#[test]
fn headers_are_refused(rt: HostRuntime) {
    let records = [post(1, 0); 20];
    refused(
        &rt,
        Header {
            buckets: 1,
            ..REPLICAS
        },
        &records,
        told(15, 0, 0),
    );
    refused(
        &rt,
        Header {
            buckets: 257,
            ..REPLICAS
        },
        &records,
        told(15, 0, 0),
    );
    refused(
        &rt,
        Header {
            rows: 0,
            ..REPLICAS
        },
        &records,
        told(15, 0, 0),
    );
    refused(
        &rt,
        Header {
            rows: 2,
            ..REPLICAS
        },
        &records,
        told(15, 0, 0),
    );
    refused(
        &rt,
        Header {
            most: 9,
            ..REPLICAS
        },
        &records,
        told(15, 0, 0),
    );
    refused(
        &rt,
        Header {
            rule: 3,
            ..REPLICAS
        },
        &records,
        told(15, 0, 0),
    );
    refused(
        &rt,
        Header {
            kind: 0,
            ..REPLICAS
        },
        &records,
        told(15, 0, 0),
    );
}

#[test]
fn records_are_refused(rt: HostRuntime) {
    let mut records = [post(1, 0); 38];
    records[37] = post(1, 1);
    refused(&rt, REPLICAS, &records, told(16, 1, 19));
    records[19] = Record {
        call: Call::LookUp,
        packets: 1,
        ..widen()
    };
    refused(&rt, TRAFFIC, &records, told(16, 1, 1));
    records[0] = Record {
        call: Call::Narrow,
        key: KEY,
        ..widen()
    };
    refused(&rt, TRAFFIC, &records, told(16, 0, 1));
    refused(&rt, Header { rule: 9, ..TRAFFIC }, &records, told(15, 0, 0));
}
