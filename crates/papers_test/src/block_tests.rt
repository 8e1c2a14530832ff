use crate::samples::figures;
use blocks::block::count_blocks;
use blocks::check::{check_holds, write_check};
use blocks::fault::{BlockFault, RecordFault};

#[test]
fn blocks_are_counted(rt: HostRuntime) {
    let bytes = [0; 51712];
    assert_eq!(rt; count_blocks(&bytes[0..0]), None);
    assert_eq!(rt; count_blocks(&bytes[0..511]), None);
    assert_eq!(rt; count_blocks(&bytes[0..512]), Some(1));
    assert_eq!(rt; count_blocks(&bytes[0..513]), None);
    assert_eq!(rt; count_blocks(&bytes[0..51200]), Some(100));
    assert_eq!(rt; count_blocks(&bytes), None);
}

#[test]
fn a_check_is_written_and_holds(rt: HostRuntime) {
    let mut block = [0; 512];
    assert!(rt; !check_holds(&block));
    write_check(&mut block);
    assert_eq!(rt;
        &block[504..512],
        [133, 200, 138, 7, 151, 67, 1, 82].as_slice()
    );
    assert!(rt; check_holds(&block));
    block[503] = 1;
    assert!(rt; !check_holds(&block));
}

#[test]
fn faults_have_their_figures(rt: HostRuntime) {
    assert_eq!(rt; BlockFault::Check { block: 7 }.figures(), figures(14, 7, 0));
    assert_eq!(rt;
        BlockFault::Header { block: 99 }.figures(),
        figures(15, 99, 0)
    );
    assert_eq!(rt;
        BlockFault::Record(RecordFault {
            block: 8,
            record: 19,
        })
        .figures(),
        figures(16, 8, 19)
    );
}
