//! Hash tables of symbols: the System V table (System V gABI chapter 5, "Hash Table") and the GNU table (GNU hash table).
#![tactic(auto)]

mod chain;
mod hash;
mod jumps;
mod lengths;
mod lookup;
mod table;
mod whole;

pub use hash::{GNU_START, SYSV_TOP, gnu_hash, sysv_hash};
pub use jumps::found;
pub use lookup::{first, name_hash, next};
pub use table::{
    BLOOM_SHIFT, BLOOM_SIZE, BLOOM_WORD_BITS, BLOOM_WORD_SIZE, GNU_HEADER_SIZE, NBUCKET, NCHAIN,
    SYMOFFSET, SYSV_HEADER_SIZE, Table, WORD_SIZE,
};
pub use whole::{is_whole, well_formed};
