/// A thread-local variable, as `__tls_get_addr` is asked for it (Drepper, "ELF Handling for Thread-Local Storage", section 3.4.6).
#[derive(Clone, Copy)]
pub struct TlsIndex {
    /// The index of the object with its block among the members of the scope.
    pub member: u32,

    /// Bytes from the block's begin.
    pub offset: u64,
}
