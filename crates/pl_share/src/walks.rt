use pl_base::Rows;

/// Which libraries are loaded together.
#[derive(Drop)]
pub struct Walks {
    /// For each walk the positions of its libraries among the wants. A position that is no want's says nothing.
    pub rows: Rows<Rows<u32>>,
}
