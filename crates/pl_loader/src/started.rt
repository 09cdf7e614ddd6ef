use crate::{Placed, TlsModule};
use pl_base::Rows;
use pl_image::Image;

/// What a program starts from.
#[derive(Drop)]
pub struct Started<'a> {
    /// Whether the program starts from the prelinked files as they stand.
    pub fast: bool,

    /// The objects in memory, in scope order.
    pub objects: Rows<Placed>,

    /// The objects with thread-local storage, in scope order.
    pub modules: Rows<TlsModule>,

    /// The address at which the program begins.
    pub entry: u64,

    /// What is in memory at the start.
    pub image: Image<'a>,
}
