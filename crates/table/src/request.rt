// A call as it is asked of a table. A post or a narrowing says how many of the lent work words come with it.
#[derive(Clone, Copy)]
pub enum Request<'k, T> {
    // a post of the amount to the key
    Post {
        key: &'k [u8],
        amount: T,
        words: usize,
    },
    // a reversal of the amount from the key
    Reverse {
        key: &'k [u8],
        amount: T,
    },
    // an erasure of the key
    Erase {
        key: &'k [u8],
    },
    // a look-up of the key
    LookUp {
        key: &'k [u8],
    },
    // one row more in use
    Widen,
    // one row fewer in use
    Narrow {
        words: usize,
    },
}
