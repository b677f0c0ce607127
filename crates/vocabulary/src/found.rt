/// Where a password was found: the slot, and the place in its chain.
#[derive(Clone, Copy, Debug, PartialEq, Eq)]
pub struct Found {
    pub slot: usize,
    pub place: usize,
}
