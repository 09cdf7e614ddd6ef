use crate::layout::Layout;
use crate::linking::Linking;

/// What is read of a file by its dynamic table: its names, and its tables.
#[derive(Drop)]
pub struct Contents {
    pub linking: Linking,
    pub layout: Layout,
}
