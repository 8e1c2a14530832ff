// Several faults at once: the first in the order of the checks is told.
use crate::samples::{TRAFFIC, figures_of, figures_of_writing, mend, post, put, told};

// From the last of the checks to the first, each fault comes before those that stand already.
#[test]
fn each_fault_before_the_later_ones(rt: HostRuntime) {
    let mut paper = [0; 1024];
    assert_eq!(rt;
        figures_of_writing(TRAFFIC, &[post(1, 9); 21], &mut paper),
        None
    );
    put(&mut paper, 1, 503, 1);
    mend(&mut paper, 1);
    assert_eq!(rt; figures_of(&paper), told(16, 1, 0));
    put(&mut paper, 1, 490, 1);
    mend(&mut paper, 1);
    assert_eq!(rt; figures_of(&paper), told(16, 1, 19));
    put(&mut paper, 1, 34, 9);
    mend(&mut paper, 1);
    assert_eq!(rt; figures_of(&paper), told(16, 1, 2));
    put(&mut paper, 1, 8, 9);
    mend(&mut paper, 1);
    assert_eq!(rt; figures_of(&paper), told(16, 1, 1));
    put(&mut paper, 1, 7, 9);
    mend(&mut paper, 1);
    assert_eq!(rt; figures_of(&paper), told(15, 1, 0));
    put(&mut paper, 1, 504, 0);
    put(&mut paper, 1, 505, 0);
    assert_eq!(rt; figures_of(&paper), told(14, 1, 0));
}

#[test]
fn a_block_before_the_next(rt: HostRuntime) {
    let mut paper = [0; 1024];
    assert_eq!(rt;
        figures_of_writing(TRAFFIC, &[post(1, 9); 21], &mut paper),
        None
    );
    put(&mut paper, 1, 0, 9);
    assert_eq!(rt; figures_of(&paper), told(14, 1, 0));
    put(&mut paper, 0, 503, 1);
    mend(&mut paper, 0);
    assert_eq!(rt; figures_of(&paper), told(16, 0, 0));
    put(&mut paper, 0, 4, 0);
    mend(&mut paper, 0);
    assert_eq!(rt; figures_of(&paper), told(15, 0, 0));
    assert_eq!(rt; figures_of(&paper[0..1023]), told(13, 0, 0));
}
