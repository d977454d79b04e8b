// The numbers that a kind of chip fixes.

#[derive(Clone, Copy)]
pub struct Numbers {
    // the columns of a face
    pub columns: usize,
    // the steps after which a face comes back
    pub round: u64,
    // the divider's three numbers
    pub m: u32,
    pub d: u32,
    pub k: u32,
}
