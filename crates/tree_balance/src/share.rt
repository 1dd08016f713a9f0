/// The cells of a list that one page holds: from an index up to another one, which is not among them.
#[derive(Clone, Copy, Debug)]
pub struct Share {
    pub from: u32,
    pub to: u32,
}
