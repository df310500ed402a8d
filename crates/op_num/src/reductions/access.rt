// What a parallel loop lets its kernel do.

/// What a kernel may do to an argument, as the OP2 C API names it: `OP_READ`, `OP_WRITE`, `OP_RW`, `OP_INC`, `OP_MIN`
/// and `OP_MAX`. The last two stand on globals in OP2; here they are allowed on dats too.
#[derive(Clone, Copy, Debug, PartialEq, Eq)]
pub enum Access {
    /// The kernel reads it only.
    Read,
    /// The kernel assigns it and doesn't read it before.
    Write,
    /// The kernel reads and assigns it.
    Rw,
    /// The kernel adds to it.
    Inc,
    /// The kernel lowers it to a least value.
    Min,
    /// The kernel raises it to a greatest value.
    Max,
}
