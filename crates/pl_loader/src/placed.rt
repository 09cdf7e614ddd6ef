use pl_base::Text;

/// An object in memory.
#[derive(Drop)]
pub struct Placed {
    /// The name of its file.
    pub name: Text,

    /// The lowest address of its PT_LOADs, as loaded, rounded down to a page.
    pub start: u64,

    /// The highest end of its PT_LOADs, as loaded, rounded up to a page.
    pub end: u64,
}
