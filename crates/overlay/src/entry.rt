// One entry of an overlay's table.

// A sector that was written, and its bytes.
#[derive(Default, Drop)]
pub(crate) struct Entry {
    pub(crate) sector: u32,
    pub(crate) bytes: [u8; 512],
}
